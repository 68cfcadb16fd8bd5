// What a case of the probe may lend, what lent room is filled with and whether it has stayed so, and printing of lent rows by
// way of a lent buffer.
#![tactic(auto)]

pub mod limits;
pub mod printing;
pub mod rest;
