// What each of the library's public functions on a network answers and leaves, printed by way of a lent buffer: a module for
// each op of the probe's table, over the rows that a case lends. The writer's stands in `probe_files`.
#![tactic(auto)]

pub mod changes;
pub mod checking;
pub mod forwards;
pub mod maps;
pub mod routes;
pub mod single;
pub mod tables;
