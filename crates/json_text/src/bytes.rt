// Tests of a byte, and of what an escape names. See specs/Bytes.antt.
ghost use Rattle.std.specs.Prelude.{◌≡◌};
ghost use Rattle.octets.specs.Pick.{within};
ghost use Rattle.octets.specs.Class.{is_digit, is_space};
ghost use Rattle.json_text.specs.Bytes.{is_sign, is_e, names_good, names_bad, hex_value, grown, is_high, is_low, named_bad};

pub fn is_space(b: u8) -> bool
    ensures { result ≡ is_space b }
{
    (b == 0x20) | ((b == 0x09) | ((b == 0x0D) | (b == 0x0A)))
}

pub fn is_digit(b: u8) -> bool
    ensures { result ≡ is_digit b }
{
    (0x30 <= b) & (b <= 0x39)
}

pub fn is_sign(b: u8) -> bool
    ensures { result ≡ is_sign b }
{
    (b == b'-') | (b == b'+')
}

pub fn is_e(b: u8) -> bool
    ensures { result ≡ is_e b }
{
    (b == 0x65) | (b == 0x45)
}

// The second byte of an escape that names a character that a string may hold.
pub fn names_good(b: u8) -> bool
    ensures { result ≡ names_good b }
{
    (b == 0x22) | ((b == 0x5C) | ((b == 0x2F) | ((b == 0x6E) | (b == 0x74))))
}

// The same of one that it may not hold.
pub fn names_bad(b: u8) -> bool
    ensures { result ≡ names_bad b }
{
    (b == 0x62) | ((b == 0x66) | (b == 0x72))
}

// A to F.
fn is_upper_hex(b: u8) -> bool
    ensures { result ≡ within 0x41 0x46 b }
{
    (0x41 <= b) & (b <= 0x46)
}

// a to f.
fn is_lower_hex(b: u8) -> bool
    ensures { result ≡ within 0x61 0x66 b }
{
    (0x61 <= b) & (b <= 0x66)
}

// The value of a hex digit, 16 for any other byte.
pub fn hex_value(b: u8) -> u8
    ensures { result ≡ hex_value b }
{
    if is_digit(b) {
        return b - 0x30;
    }
    if is_upper_hex(b) {
        return b - 0x37;
    }
    if is_lower_hex(b) {
        return b - 0x57;
    }
    16
}

// The value of four digits, `d` the last of them.
pub fn with_digit(v: u32, d: u8) -> u32
    ensures { result ≡ grown v d }
{
    v % 0x1000 * 16 + d as u32
}

pub fn is_high(v: u32) -> bool
    ensures { result ≡ is_high v }
{
    (0xD800 <= v) & (v <= 0xDBFF)
}

pub fn is_low(v: u32) -> bool
    ensures { result ≡ is_low v }
{
    (0xDC00 <= v) & (v <= 0xDFFF)
}

// A code unit that an escape may not name.
pub fn named_bad(v: u32) -> bool
    ensures { result ≡ named_bad v }
{
    ((0xDC00 <= v) & (v <= 0xDFFF))
        | (((0x0 <= v) & (v <= 0x8))
            | (((0xB <= v) & (v <= 0x1F)) | ((v == 0x7F) | ((0xFFFE <= v) & (v <= 0xFFFF)))))
}
