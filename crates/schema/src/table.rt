// The one table of properties: property_table of specs/Properties.antt, in order of name, in numbers. A set is a mask, one bit for each type, parameter, component or list.
// tools/table-rows.py writes the entries.
ghost use Rattle.std.specs.Prelude.{◌≡◌, true, ◌≤◌};
ghost use Rattle.octets.specs.Class.{upper};
ghost use Rattle.source.specs.Source.{rest};
ghost use Rattle.names.specs.Table.{place_of};
ghost use Rattle.schema.specs.Properties.{property_names, unrecognised_property};
ghost use Rattle.schema.specs.Coded.{coded, row_at, place_by, first_half, second_half};
ghost use Rattle.schema.specs.Halving.{short_key, long_key, key_for, rising, found_in};

use crate::{property, value_type};
use names::packed::pack;
use source::Encoding;

// A property: the first bytes of its name, and its name (names::pack); the permitted parameters, types and components; the lists in which it stands at least once, at most once, any number of times;
// the type of its values where no VALUE is given; whether it takes a list of values.
#[derive(Clone, Copy)]
pub struct Entry {
    pub key: u64,
    pub high: u64,
    pub low: u64,
    pub parameters: u32,
    pub types: u16,
    pub components: u16,
    pub least: u16,
    pub once: u16,
    pub many: u16,
    pub default: u8,
    pub listed: bool,
}

// What the table says of a property, fetched once for a line and passed on: its number, property::KNOWN for an unrecognised one; the type of its values where no VALUE is given, whether it takes a list of values,
// the permitted types, parameters and components.
#[derive(Clone, Copy, Debug, PartialEq, Eq)]
pub struct Row {
    pub number: usize,
    pub default: usize,
    pub listed: bool,
    pub types: u32,
    pub parameters: u32,
    pub components: u32,
}

// What stands for a property that is no row: one value of any type.
const UNRECOGNISED: Row = Row {
    number: property::KNOWN,
    default: value_type::UNKNOWN,
    listed: false,
    types: 0x7fff,
    parameters: 0x0,
    components: 0x0,
};

// How many entries a half has.
pub const HALF: usize = 23;

// The table in two halves: a search copies what it indexes onto the stack, and so only one of them.
const FIRST: [Entry; 23] = [
    // ACTION
    Entry {
        key: 0xc187524cf9c00000,
        high: 0x0,
        low: 0x60c3a9267ce,
        parameters: 0x0,
        types: 0x400,
        components: 0x100,
        least: 0x700,
        once: 0x700,
        many: 0x0,
        default: value_type::TEXT as u8,
        listed: false,
    },
    // ATTACH
    Entry {
        key: 0xc1a9520c39000000,
        high: 0x0,
        low: 0x60d4a9061c8,
        parameters: 0xc0,
        types: 0x1001,
        components: 0x10e,
        least: 0x0,
        once: 0x100,
        many: 0x40e,
        default: value_type::URI as u8,
        listed: false,
    },
    // ATTENDEE
    Entry {
        key: 0xc1a9522ce8916280,
        high: 0x1,
        low: 0x8352a459d122c5,
        parameters: 0x38e3e,
        types: 0x4,
        components: 0x11e,
        least: 0x400,
        once: 0x0,
        many: 0x41e,
        default: value_type::CAL_ADDRESS as u8,
        listed: false,
    },
    // CALSCALE
    Entry {
        key: 0xc383329c38332280,
        high: 0x1,
        low: 0x87066538706645,
        parameters: 0x0,
        types: 0x400,
        components: 0x1,
        least: 0x0,
        once: 0x1,
        many: 0x0,
        default: value_type::TEXT as u8,
        listed: false,
    },
    // CATEGORIES
    Entry {
        key: 0xc383522c79f4a4c5,
        high: 0x61c1,
        low: 0xa9163cfa5262d3,
        parameters: 0x200,
        types: 0x400,
        components: 0xe,
        least: 0x0,
        once: 0x0,
        many: 0xe,
        default: value_type::TEXT as u8,
        listed: true,
    },
    // CLASS
    Entry {
        key: 0xc399069d30000000,
        high: 0x0,
        low: 0xc399069d3,
        parameters: 0x0,
        types: 0x400,
        components: 0xe,
        least: 0x0,
        once: 0xe,
        many: 0x0,
        default: value_type::TEXT as u8,
        listed: false,
    },
    // COMMENT
    Entry {
        key: 0xc39f366c59d50000,
        high: 0x0,
        low: 0x30e7cd9b16754,
        parameters: 0x201,
        types: 0x400,
        components: 0xde,
        least: 0x0,
        once: 0x0,
        many: 0xde,
        default: value_type::TEXT as u8,
        listed: false,
    },
    // COMPLETED
    Entry {
        key: 0xc39f3684c8b522c4,
        high: 0xc3,
        low: 0x9f3684c8b522c4,
        parameters: 0x0,
        types: 0x10,
        components: 0x4,
        least: 0x0,
        once: 0x4,
        many: 0x0,
        default: value_type::DATE_TIME as u8,
        listed: false,
    },
    // CONTACT
    Entry {
        key: 0xc39f3aa418750000,
        high: 0x0,
        low: 0x30e7cea9061d4,
        parameters: 0x201,
        types: 0x400,
        components: 0x1e,
        least: 0x0,
        once: 0x10,
        many: 0xe,
        default: value_type::TEXT as u8,
        listed: false,
    },
    // CREATED
    Entry {
        key: 0xc3a5160d48b10000,
        high: 0x0,
        low: 0x30e94583522c4,
        parameters: 0x0,
        types: 0x10,
        components: 0xe,
        least: 0x0,
        once: 0xe,
        many: 0x0,
        default: value_type::DATE_TIME as u8,
        listed: false,
    },
    // DESCRIPTION
    Entry {
        key: 0xc48b4e1d29342a49,
        high: 0x3122d3,
        low: 0x874a4d0a9267ce,
        parameters: 0x201,
        types: 0x400,
        components: 0x10e,
        least: 0x600,
        once: 0x60e,
        many: 0x0,
        default: value_type::TEXT as u8,
        listed: false,
    },
    // DTEND
    Entry {
        key: 0xc4a9167440000000,
        high: 0x0,
        low: 0xc4a916744,
        parameters: 0x40000,
        types: 0x18,
        components: 0x12,
        least: 0x0,
        once: 0x12,
        many: 0x0,
        default: value_type::DATE_TIME as u8,
        listed: false,
    },
    // DTSTAMP
    Entry {
        key: 0xc4a94ea419b40000,
        high: 0x0,
        low: 0x312a53a9066d0,
        parameters: 0x0,
        types: 0x10,
        components: 0x1e,
        least: 0x1e,
        once: 0x1e,
        many: 0x0,
        default: value_type::DATE_TIME as u8,
        listed: false,
    },
    // DTSTART
    Entry {
        key: 0xc4a94ea41a550000,
        high: 0x0,
        low: 0x312a53a906954,
        parameters: 0x40000,
        types: 0x18,
        components: 0xde,
        least: 0xc0,
        once: 0xde,
        many: 0x0,
        default: value_type::DATE_TIME as u8,
        listed: false,
    },
    // DUE
    Entry {
        key: 0xc4ab140000000000,
        high: 0x0,
        low: 0x312ac5,
        parameters: 0x40000,
        types: 0x18,
        components: 0x4,
        least: 0x0,
        once: 0x4,
        many: 0x0,
        default: value_type::DATE_TIME as u8,
        listed: false,
    },
    // DURATION
    Entry {
        key: 0xc4ab4a0d4933e700,
        high: 0x1,
        low: 0x8956941a9267ce,
        parameters: 0x0,
        types: 0x20,
        components: 0x116,
        least: 0x0,
        once: 0x716,
        many: 0x0,
        default: value_type::DURATION as u8,
        listed: false,
    },
    // EXDATE
    Entry {
        key: 0xc5b1120d48a00000,
        high: 0x0,
        low: 0x62d88906a45,
        parameters: 0x40000,
        types: 0x18,
        components: 0xe,
        least: 0x0,
        once: 0x0,
        many: 0xe,
        default: value_type::DATE_TIME as u8,
        listed: true,
    },
    // FREEBUSY
    Entry {
        key: 0xc6a5162c2ab4ec80,
        high: 0x1,
        low: 0x8d4a2c585569d9,
        parameters: 0x100,
        types: 0x100,
        components: 0x10,
        least: 0x0,
        once: 0x0,
        many: 0x10,
        default: value_type::PERIOD as u8,
        listed: true,
    },
    // GEO
    Entry {
        key: 0xc78b3c0000000000,
        high: 0x0,
        low: 0x31e2cf,
        parameters: 0x0,
        types: 0x40,
        components: 0x6,
        least: 0x0,
        once: 0x6,
        many: 0x0,
        default: value_type::FLOAT as u8,
        listed: false,
    },
    // LAST-MODIFIED
    Entry {
        key: 0xcc834ea2d9b3e249,
        high: 0xcc834ea2d,
        low: 0x9b3e2498d262c4,
        parameters: 0x0,
        types: 0x10,
        components: 0x2e,
        least: 0x0,
        once: 0x2e,
        many: 0x0,
        default: value_type::DATE_TIME as u8,
        listed: false,
    },
    // LOCATION
    Entry {
        key: 0xcc9f0e0d4933e700,
        high: 0x1,
        low: 0x993e1c1a9267ce,
        parameters: 0x201,
        types: 0x400,
        components: 0x6,
        least: 0x0,
        once: 0x6,
        many: 0x0,
        default: value_type::TEXT as u8,
        listed: false,
    },
    // METHOD
    Entry {
        key: 0xcd8b5244f8800000,
        high: 0x0,
        low: 0x66c5a9227c4,
        parameters: 0x0,
        types: 0x400,
        components: 0x1,
        least: 0x0,
        once: 0x1,
        many: 0x0,
        default: value_type::TEXT as u8,
        listed: false,
    },
    // ORGANIZER
    Entry {
        key: 0xcfa51e0ce936a2d2,
        high: 0xcf,
        low: 0xa51e0ce936a2d2,
        parameters: 0x20222,
        types: 0x4,
        components: 0x1e,
        least: 0x0,
        once: 0x1e,
        many: 0x0,
        default: value_type::CAL_ADDRESS as u8,
        listed: false,
    },
];

const SECOND: [Entry; 23] = [
    // PERCENT-COMPLETE
    Entry {
        key: 0xd08b4a1c59d516c3,
        high: 0x1a1169438b3aa2d,
        low: 0x873e6d09916a45,
        parameters: 0x0,
        types: 0x80,
        components: 0x4,
        least: 0x0,
        once: 0x4,
        many: 0x0,
        default: value_type::INTEGER as u8,
        listed: false,
    },
    // PRIORITY
    Entry {
        key: 0xd0a5267d29352c80,
        high: 0x1,
        low: 0xa14a4cfa526a59,
        parameters: 0x0,
        types: 0x80,
        components: 0x6,
        least: 0x0,
        once: 0x6,
        many: 0x0,
        default: value_type::INTEGER as u8,
        listed: false,
    },
    // PRODID
    Entry {
        key: 0xd0a53e2498800000,
        high: 0x0,
        low: 0x68529f124c4,
        parameters: 0x0,
        types: 0x400,
        components: 0x1,
        least: 0x1,
        once: 0x1,
        many: 0x0,
        default: value_type::TEXT as u8,
        listed: false,
    },
    // RDATE
    Entry {
        key: 0xd28906a450000000,
        high: 0x0,
        low: 0xd28906a45,
        parameters: 0x40000,
        types: 0x118,
        components: 0xce,
        least: 0x0,
        once: 0x0,
        many: 0xce,
        default: value_type::DATE_TIME as u8,
        listed: true,
    },
    // RECURRENCE-ID
    Entry {
        key: 0xd28b0ead2a516743,
        high: 0xd28b0ead2,
        low: 0xa5167438ab64c4,
        parameters: 0x41000,
        types: 0x18,
        components: 0xe,
        least: 0x0,
        once: 0xe,
        many: 0x0,
        default: value_type::DATE_TIME as u8,
        listed: false,
    },
    // RELATED-TO
    Entry {
        key: 0xd28b320d48b116d4,
        high: 0x6945,
        low: 0x9906a4588b6a4f,
        parameters: 0x4000,
        types: 0x400,
        components: 0xe,
        least: 0x0,
        once: 0x0,
        many: 0xe,
        default: value_type::TEXT as u8,
        listed: false,
    },
    // REPEAT
    Entry {
        key: 0xd28b422c1a800000,
        high: 0x0,
        low: 0x6945a1160d4,
        parameters: 0x0,
        types: 0x80,
        components: 0x100,
        least: 0x0,
        once: 0x700,
        many: 0x0,
        default: value_type::INTEGER as u8,
        listed: false,
    },
    // REQUEST-STATUS
    Entry {
        key: 0xd28b46ac5a7516d3,
        high: 0x6945a3562d3,
        low: 0xa8b69d48352ad3,
        parameters: 0x200,
        types: 0x400,
        components: 0x1e,
        least: 0x0,
        once: 0x0,
        many: 0x1e,
        default: value_type::TEXT as u8,
        listed: false,
    },
    // RESOURCES
    Entry {
        key: 0xd28b4e7d5a50e2d3,
        high: 0xd2,
        low: 0x8b4e7d5a50e2d3,
        parameters: 0x201,
        types: 0x400,
        components: 0x6,
        least: 0x0,
        once: 0x0,
        many: 0x6,
        default: value_type::TEXT as u8,
        listed: true,
    },
    // RRULE
    Entry {
        key: 0xd2a5566450000000,
        high: 0x0,
        low: 0xd2a556645,
        parameters: 0x0,
        types: 0x200,
        components: 0xce,
        least: 0x0,
        once: 0xce,
        many: 0x0,
        default: value_type::RECUR as u8,
        listed: false,
    },
    // SEQUENCE
    Entry {
        key: 0xd38b46ac59d0e280,
        high: 0x1,
        low: 0xa7168d58b3a1c5,
        parameters: 0x0,
        types: 0x80,
        components: 0xe,
        least: 0x0,
        once: 0xe,
        many: 0x0,
        default: value_type::INTEGER as u8,
        listed: false,
    },
    // STATUS
    Entry {
        key: 0xd3a906a55a600000,
        high: 0x0,
        low: 0x69d48352ad3,
        parameters: 0x0,
        types: 0x400,
        components: 0xe,
        least: 0x0,
        once: 0xe,
        many: 0x0,
        default: value_type::TEXT as u8,
        listed: false,
    },
    // SUMMARY
    Entry {
        key: 0xd3ab366c1a564000,
        high: 0x0,
        low: 0x34eacd9b06959,
        parameters: 0x201,
        types: 0x400,
        components: 0x10e,
        least: 0x400,
        once: 0x40e,
        many: 0x0,
        default: value_type::TEXT as u8,
        listed: false,
    },
    // TRANSP
    Entry {
        key: 0xd4a506753a000000,
        high: 0x0,
        low: 0x6a52833a9d0,
        parameters: 0x0,
        types: 0x400,
        components: 0x2,
        least: 0x0,
        once: 0x2,
        many: 0x0,
        default: value_type::TEXT as u8,
        listed: false,
    },
    // TRIGGER
    Entry {
        key: 0xd4a5263c78b48000,
        high: 0x0,
        low: 0x3529498f1e2d2,
        parameters: 0x2000,
        types: 0x30,
        components: 0x100,
        least: 0x700,
        once: 0x700,
        many: 0x0,
        default: value_type::DURATION as u8,
        listed: false,
    },
    // TZID
    Entry {
        key: 0xd4b5262000000000,
        high: 0x0,
        low: 0x1a96a4c4,
        parameters: 0x0,
        types: 0x400,
        components: 0x20,
        least: 0x20,
        once: 0x20,
        many: 0x0,
        default: value_type::TEXT as u8,
        listed: false,
    },
    // TZNAME
    Entry {
        key: 0xd4b53a0cd8a00000,
        high: 0x0,
        low: 0x6a5a9d066c5,
        parameters: 0x200,
        types: 0x400,
        components: 0xc0,
        least: 0x0,
        once: 0x0,
        many: 0xc0,
        default: value_type::TEXT as u8,
        listed: false,
    },
    // TZOFFSETFROM
    Entry {
        key: 0xd4b53e346a716a46,
        high: 0x1a96a7c6,
        low: 0x8d4e2d48d4a7cd,
        parameters: 0x0,
        types: 0x2000,
        components: 0xc0,
        least: 0xc0,
        once: 0xc0,
        many: 0x0,
        default: value_type::UTC_OFFSET as u8,
        listed: false,
    },
    // TZOFFSETTO
    Entry {
        key: 0xd4b53e346a716a54,
        high: 0x6a5a,
        low: 0x9f1a3538b52a4f,
        parameters: 0x0,
        types: 0x2000,
        components: 0xc0,
        least: 0xc0,
        once: 0xc0,
        many: 0x0,
        default: value_type::UTC_OFFSET as u8,
        listed: false,
    },
    // TZURL
    Entry {
        key: 0xd4b55694c0000000,
        high: 0x0,
        low: 0xd4b55694c,
        parameters: 0x0,
        types: 0x1000,
        components: 0x20,
        least: 0x0,
        once: 0x20,
        many: 0x0,
        default: value_type::URI as u8,
        listed: false,
    },
    // UID
    Entry {
        key: 0xd593100000000000,
        high: 0x0,
        low: 0x3564c4,
        parameters: 0x0,
        types: 0x400,
        components: 0x1e,
        least: 0x1e,
        once: 0x1e,
        many: 0x0,
        default: value_type::TEXT as u8,
        listed: false,
    },
    // URL
    Entry {
        key: 0xd5a5300000000000,
        high: 0x0,
        low: 0x35694c,
        parameters: 0x0,
        types: 0x1000,
        components: 0x1e,
        least: 0x0,
        once: 0x1e,
        many: 0x0,
        default: value_type::URI as u8,
        listed: false,
    },
    // VERSION
    Entry {
        key: 0xd68b4a9c99f38000,
        high: 0x0,
        low: 0x35a2d2a7267ce,
        parameters: 0x0,
        types: 0x400,
        components: 0x1,
        least: 0x1,
        once: 0x1,
        many: 0x0,
        default: value_type::TEXT as u8,
        listed: false,
    },
];

// The key from which on a name is in the second half.
const MIDDLE: u64 = 0xd08b4a1c59d516c3;

// The halves. That the constants are the table is computed here, once.
pub fn first_half() -> [Entry; 23]
    ensures { result ≡ first_half }
{
    FIRST
}

pub fn second_half() -> [Entry; 23]
    ensures { result ≡ second_half }
{
    SECOND
}

// Powers of the base of a name's number.
const POWER_1: u64 = 0x80;

const POWER_2: u64 = 0x4000;

const POWER_3: u64 = 0x20_0000;

const POWER_4: u64 = 0x1000_0000;

const POWER_5: u64 = 0x8_0000_0000;

const POWER_6: u64 = 0x400_0000_0000;

const POWER_7: u64 = 0x2_0000_0000_0000;

const POWER_8: u64 = 0x100_0000_0000_0000;

const POWER_9: u64 = 0x8000_0000_0000_0000;

// The number of a name of so many bytes, or its high half of so many digits, is below this.
const UNDER_1: u64 = 0x100;

const UNDER_2: u64 = 0x8000;

const UNDER_3: u64 = 0x40_0000;

const UNDER_4: u64 = 0x2000_0000;

const UNDER_5: u64 = 0x10_0000_0000;

const UNDER_6: u64 = 0x800_0000_0000;

const UNDER_7: u64 = 0x4_0000_0000_0000;

const UNDER_8: u64 = 0x200_0000_0000_0000;

// The key of the number of a name of seven bytes at most.
fn short_key(low: u64) -> u64
    ensures { result ≡ short_key low }
{
    if UNDER_6 <= low {
        return low % UNDER_7 * POWER_2;
    }
    if UNDER_5 <= low {
        return low * POWER_3;
    }
    if UNDER_4 <= low {
        return low * POWER_4;
    }
    if UNDER_3 <= low {
        return low * POWER_5;
    }
    if UNDER_2 <= low {
        return low * POWER_6;
    }
    if UNDER_1 <= low {
        return low * POWER_7;
    }
    low * POWER_8
}

// Of nine bytes or more.
fn long_key(high: u64, low: u64) -> u64
    ensures { result ≡ long_key high low }
{
    if high < UNDER_1 {
        return high * POWER_8 + low % POWER_8;
    }
    if high < UNDER_2 {
        return high * POWER_7 + low % POWER_8 / POWER_1;
    }
    if high < UNDER_3 {
        return high * POWER_6 + low % POWER_8 / POWER_2;
    }
    if high < UNDER_4 {
        return high * POWER_5 + low % POWER_8 / POWER_3;
    }
    if high < UNDER_5 {
        return high * POWER_4 + low % POWER_8 / POWER_4;
    }
    if high < UNDER_6 {
        return high * POWER_3 + low % POWER_8 / POWER_5;
    }
    if high < UNDER_7 {
        return high * POWER_2 + low % POWER_8 / POWER_6;
    }
    high % UNDER_8 * POWER_1 + low % POWER_8 / POWER_7
}

// What a name is ordered by.
fn key_for(high: u64, low: u64) -> u64
    ensures { result ≡ key_for high low }
{
    if high == 0 {
        return short_key(low);
    }
    if high == 1 {
        return POWER_9 + low % POWER_8 * POWER_1;
    }
    long_key(high, low)
}

// The row of the entry that has these halves, by halving; `from` is the number of the first. Both calls of it are folded into row_by, so that no entry is copied.
fn row_in(rows: [Entry; 23], from: usize, key: u64, high: u64, low: u64) -> Row
    requires { (rising rows ≡ true) × (from ≤ 46) }
    ensures { result ≡ found_in rows from key high low (coded unrecognised_property) }
{
    let mut first = 0;
    let mut end = HALF;
    while first < end {
        let middle = first + (end - first) / 2;
        if rows[middle].key < key {
            first = middle + 1;
        } else {
            end = middle;
        }
    }
    if first < HALF {
        let e = rows[first];
        if (low == e.low) & (high == e.high) {
            return Row {
                number: from + first,
                default: e.default as usize,
                listed: e.listed,
                types: e.types as u32,
                parameters: e.parameters,
                components: e.components as u32,
            };
        }
        return UNRECOGNISED;
    }
    UNRECOGNISED
}

// The row of the property whose name has these halves.
fn row_by(high: u64, low: u64) -> Row
    ensures { result ≡ row_at (place_by high low) }
{
    let key = key_for(high, low);
    if key < MIDDLE {
        let rows = first_half();
        return row_in(rows, 0, key, high, low);
    }
    let rows = second_half();
    row_in(rows, HALF, key, high, low)
}

// The row of the property of a name; of an unrecognised one, what stands for it.
pub fn row_of<E: Encoding>(s: &[u8], at: usize) -> Row
    ensures { result ≡ row_at (place_of (upper (rest E.encoding s.now at)) property_names) }
{
    let w = pack::<E>(s, at);
    row_by(w.high, w.low)
}
