// The XML declaration: what it begins and ends with, its two attributes and their values.
pub const START: [u8; 5] = *b"<?xml";

pub const VERSION: [u8; 7] = *b"version";

pub const ONE: [u8; 3] = *b"1.0";

pub const ENCODING: [u8; 8] = *b"encoding";

pub const UTF8: [u8; 5] = *b"utf-8";

pub const END: [u8; 2] = *b"?>";
