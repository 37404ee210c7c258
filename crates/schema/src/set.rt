// The numbers of the closed sets of words: their places in specs/Sets.antt.
pub const CALSCALE: usize = 0;

pub const VERSION: usize = 1;

pub const CLASS: usize = 2;

pub const TRANSP: usize = 3;

pub const ACTION: usize = 4;

pub const EVENT_STATUS: usize = 5;

pub const TODO_STATUS: usize = 6;

pub const JOURNAL_STATUS: usize = 7;

pub const CUTYPE: usize = 8;

pub const ENCODING: usize = 9;

pub const FBTYPE: usize = 10;

pub const PARTSTAT: usize = 11;

pub const RANGE: usize = 12;

pub const RELATED: usize = 13;

pub const RELTYPE: usize = 14;

pub const ROLE: usize = 15;

// Of STATUS where none of the three above is given to a component.
pub const STATUS: usize = 16;

// How many there are.
pub const COUNT: usize = 17;
