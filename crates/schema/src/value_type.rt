// The numbers of the value types: their places in specs/Types.antt.
pub const BINARY: usize = 0;

pub const BOOLEAN: usize = 1;

pub const CAL_ADDRESS: usize = 2;

pub const DATE: usize = 3;

pub const DATE_TIME: usize = 4;

pub const DURATION: usize = 5;

pub const FLOAT: usize = 6;

pub const INTEGER: usize = 7;

pub const PERIOD: usize = 8;

pub const RECUR: usize = 9;

pub const TEXT: usize = 10;

pub const TIME: usize = 11;

pub const URI: usize = 12;

pub const UTC_OFFSET: usize = 13;

// How many there are.
pub const KNOWN: usize = 14;

// The type `unknown`, which is none of them.
pub const UNKNOWN: usize = 14;
