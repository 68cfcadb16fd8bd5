// What each of the library's public functions on the stored form answers and leaves, printed by way of a lent buffer: a module
// for each op of the probe's table, over the rows that a case lends.
#![tactic(auto)]

pub mod blocks;
pub mod files;
pub mod reading;
