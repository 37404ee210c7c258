// Names of elements, in small letters.
// The root, a calendar in it, and what a component is made of.
pub const ICALENDAR: [u8; 9] = *b"icalendar";

pub const VCALENDAR: [u8; 9] = *b"vcalendar";

pub const PROPERTIES: [u8; 10] = *b"properties";

pub const COMPONENTS: [u8; 10] = *b"components";

pub const PARAMETERS: [u8; 10] = *b"parameters";

// What a value is made of: PERIOD, GEO, REQUEST-STATUS.
pub const START: [u8; 5] = *b"start";

pub const END: [u8; 3] = *b"end";

pub const DURATION: [u8; 8] = *b"duration";

pub const LATITUDE: [u8; 8] = *b"latitude";

pub const LONGITUDE: [u8; 9] = *b"longitude";

pub const CODE: [u8; 4] = *b"code";

pub const DESCRIPTION: [u8; 11] = *b"description";

pub const DATA: [u8; 4] = *b"data";

// Types that are written apart from the others.
pub const PERIOD: [u8; 6] = *b"period";

pub const RECUR: [u8; 5] = *b"recur";

pub const TEXT: [u8; 4] = *b"text";

// Names of lines that no property has.
pub const BEGIN: [u8; 5] = *b"begin";
