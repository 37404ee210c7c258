// The names of units. A unit is what a cursor (crate source) reads: a `usize` that is a byte, below 256, or END where nothing is left.
// A byte as a `u8` is written as a literal instead: b','.

pub const END: usize = 256;

pub const TAB: usize = 9;

pub const LF: usize = 10;

pub const CR: usize = 13;

pub const SPACE: usize = 32;

pub const EXCLAMATION: usize = 33;

pub const QUOTE: usize = 34;

pub const AMPERSAND: usize = 38;

pub const APOSTROPHE: usize = 39;

pub const PLUS: usize = 43;

pub const COMMA: usize = 44;

pub const HYPHEN: usize = 45;

pub const POINT: usize = 46;

pub const SLASH: usize = 47;

pub const ZERO: usize = 48;

pub const NINE: usize = 57;

pub const COLON: usize = 58;

pub const SEMICOLON: usize = 59;

pub const LESS: usize = 60;

pub const EQUALS: usize = 61;

pub const GREATER: usize = 62;

pub const UPPER_A: usize = 65;

pub const UPPER_B: usize = 66;

pub const UPPER_D: usize = 68;

pub const UPPER_E: usize = 69;

pub const UPPER_F: usize = 70;

pub const UPPER_H: usize = 72;

pub const UPPER_L: usize = 76;

pub const UPPER_M: usize = 77;

pub const UPPER_N: usize = 78;

pub const UPPER_P: usize = 80;

pub const UPPER_S: usize = 83;

pub const UPPER_T: usize = 84;

pub const UPPER_W: usize = 87;

pub const UPPER_X: usize = 88;

pub const UPPER_Z: usize = 90;

pub const BACKSLASH: usize = 92;

pub const RIGHT_BRACKET: usize = 93;

pub const CARET: usize = 94;

pub const GRAVE: usize = 96;

pub const LOWER_A: usize = 97;

pub const LOWER_B: usize = 98;

pub const LOWER_E: usize = 101;

pub const LOWER_F: usize = 102;

pub const LOWER_N: usize = 110;

pub const LOWER_Z: usize = 122;

pub const LEFT_BRACE: usize = 123;

pub const BAR: usize = 124;

pub const RIGHT_BRACE: usize = 125;

pub const TILDE: usize = 126;

// From a capital to its small letter.
pub const CASE_STEP: usize = LOWER_A - UPPER_A;
