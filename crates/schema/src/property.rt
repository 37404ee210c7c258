// The numbers of the properties: their places in specs/Properties.antt.
pub const ACTION: usize = 0;

pub const ATTACH: usize = 1;

pub const ATTENDEE: usize = 2;

pub const CALSCALE: usize = 3;

pub const CATEGORIES: usize = 4;

pub const CLASS: usize = 5;

pub const COMMENT: usize = 6;

pub const COMPLETED: usize = 7;

pub const CONTACT: usize = 8;

pub const CREATED: usize = 9;

pub const DESCRIPTION: usize = 10;

pub const DTEND: usize = 11;

pub const DTSTAMP: usize = 12;

pub const DTSTART: usize = 13;

pub const DUE: usize = 14;

pub const DURATION: usize = 15;

pub const EXDATE: usize = 16;

pub const FREEBUSY: usize = 17;

pub const GEO: usize = 18;

pub const LAST_MODIFIED: usize = 19;

pub const LOCATION: usize = 20;

pub const METHOD: usize = 21;

pub const ORGANIZER: usize = 22;

pub const PERCENT_COMPLETE: usize = 23;

pub const PRIORITY: usize = 24;

pub const PRODID: usize = 25;

pub const RDATE: usize = 26;

pub const RECURRENCE_ID: usize = 27;

pub const RELATED_TO: usize = 28;

pub const REPEAT: usize = 29;

pub const REQUEST_STATUS: usize = 30;

pub const RESOURCES: usize = 31;

pub const RRULE: usize = 32;

pub const SEQUENCE: usize = 33;

pub const STATUS: usize = 34;

pub const SUMMARY: usize = 35;

pub const TRANSP: usize = 36;

pub const TRIGGER: usize = 37;

pub const TZID: usize = 38;

pub const TZNAME: usize = 39;

pub const TZOFFSETFROM: usize = 40;

pub const TZOFFSETTO: usize = 41;

pub const TZURL: usize = 42;

pub const UID: usize = 43;

pub const URL: usize = 44;

pub const VERSION: usize = 45;

// How many there are, and the number of an unrecognised one.
pub const KNOWN: usize = 46;
