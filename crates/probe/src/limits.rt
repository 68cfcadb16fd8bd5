// The probe's own limits; what a case may lend stands in `probe_rows::limits`.

// Words of a case's head.
pub const HEAD: usize = 12;

// Bytes of the buffer that what is printed waits in.
pub const OUT: usize = 8192;

// The most cases of a run: a loop has to end, and nothing says that the input does.
pub const CASES: u64 = 10000000;
