// What a case may lend. No other file of code writes these numbers.

// The most parents, link numbers and bytes of a case, and the most room that it lends.
pub const PARENTS: usize = 600;

pub const LINKS: usize = 8400;

pub const BYTES: usize = 33000;

pub const ROOM: usize = 40000;

// The most numbers of each of the two rows that it lends to the forwarder.
pub const ROUTE: usize = 5000;
