// The columns of a row: the first word of each. A column but the first has a word for each sign, clear and set
// (specs/Columns.antt).
pub const AVOID: usize = 0;

pub const QUIET: usize = 1;

pub const COVERED: usize = 3;

pub const MAY_PRE: usize = 5;

pub const MAY_POST: usize = 7;

pub const MAY_INC: usize = 9;

pub const REQUIRES: usize = 11;

pub const ASSERTS: usize = 13;

pub const POSTS: usize = 15;

pub const MAY_CLOBBER: usize = 17;

pub const MUST_INC: usize = 19;

pub const MUST_CLOBBER: usize = 21;

// The end of a row.
pub const END: usize = 23;
