// The numbers of the components: their places in specs/Components.antt.
pub const VCALENDAR: usize = 0;

pub const VEVENT: usize = 1;

pub const VTODO: usize = 2;

pub const VJOURNAL: usize = 3;

pub const VFREEBUSY: usize = 4;

pub const VTIMEZONE: usize = 5;

pub const STANDARD: usize = 6;

pub const DAYLIGHT: usize = 7;

pub const VALARM: usize = 8;

// How many there are, and the number of an unrecognised one.
pub const KNOWN: usize = 9;

// How many levels of components a calendar has at most, its VCALENDAR the first; and how many of them stand below that.
pub const LEVELS: usize = 9;

pub const BELOW: usize = 8;
