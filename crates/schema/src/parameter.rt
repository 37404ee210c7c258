// The numbers of the parameters: their places in specs/Parameters.antt.
pub const ALTREP: usize = 0;

pub const CN: usize = 1;

pub const CUTYPE: usize = 2;

pub const DELEGATED_FROM: usize = 3;

pub const DELEGATED_TO: usize = 4;

pub const DIR: usize = 5;

pub const ENCODING: usize = 6;

pub const FMTTYPE: usize = 7;

pub const FBTYPE: usize = 8;

pub const LANGUAGE: usize = 9;

pub const MEMBER: usize = 10;

pub const PARTSTAT: usize = 11;

pub const RANGE: usize = 12;

pub const RELATED: usize = 13;

pub const RELTYPE: usize = 14;

pub const ROLE: usize = 15;

pub const RSVP: usize = 16;

pub const SENT_BY: usize = 17;

pub const TZID: usize = 18;

// How many there are, and the number of an unrecognised one.
pub const KNOWN: usize = 19;
