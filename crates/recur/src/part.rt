// The numbers of the parts of a rule: their places in specs/Parts.antt.
pub const FREQ: usize = 0;

pub const UNTIL: usize = 1;

pub const COUNT: usize = 2;

pub const INTERVAL: usize = 3;

pub const BYSECOND: usize = 4;

pub const BYMINUTE: usize = 5;

pub const BYHOUR: usize = 6;

pub const BYDAY: usize = 7;

pub const BYMONTHDAY: usize = 8;

pub const BYYEARDAY: usize = 9;

pub const BYWEEKNO: usize = 10;

pub const BYMONTH: usize = 11;

pub const BYSETPOS: usize = 12;

pub const WKST: usize = 13;

// How many there are, and the number of what is none of them.
pub const KNOWN: usize = 14;
