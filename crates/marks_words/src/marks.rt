// The marks of a node for a literal, by their numbers in a sheet.
pub const MAY_PRE: usize = 0;

pub const MUST_PRE: usize = 1;

pub const MAY_POST: usize = 2;

pub const MUST_POST: usize = 3;

pub const MAY_INC: usize = 4;

pub const MUST_INC: usize = 5;

pub const MAY_CLOBBER: usize = 6;

pub const MUST_CLOBBER: usize = 7;
