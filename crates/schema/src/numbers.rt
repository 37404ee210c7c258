// The number of a name that stands from a cursor on (crate source), in any case. Of a parameter, of which a line has many, its bytes are packed (specs/Packing.antt of crate names)
// and compared with the packed names, in groups of at most eight (specs/Packs.antt). `tools/packed-names.py` prints them; one that is wrong is refused by the check.
ghost use Rattle.std.specs.Prelude.{◌≡◌};
ghost use Rattle.octets.specs.Class.{upper};
ghost use Rattle.source.specs.Source.{rest};
ghost use Rattle.names.specs.Table.{place_of};
ghost use Rattle.names.specs.Packing.{lookup};
ghost use Rattle.schema.specs.Numbers.{type_names};
ghost use Rattle.schema.specs.Components.{component_names};
ghost use Rattle.schema.specs.Parameters.{parameter_names};
ghost use Rattle.schema.specs.Packs.{parameter_rows1, parameter_rows2, parameter_rows3};

use crate::parameter;
use names::find_word;
use names::packed::pack;
use source::Encoding;

// The number of a value type, 14 (UNKNOWN) where there is none of that name.
pub fn type_number<E: Encoding>(s: &[u8], at: usize) -> usize
    ensures { result ≡ place_of (upper (rest E.encoding s.now at)) type_names }
{
    find_word::<E>(
        false,
        s,
        at,
        b"BINARY\nBOOLEAN\nCAL-ADDRESS\nDATE\nDATE-TIME\nDURATION\nFLOAT\nINTEGER\nPERIOD\nRECUR\nTEXT\nTIME\nURI\nUTC-OFFSET\n",
    )
}

// The number of a component, 9 where there is none of that name.
pub fn component_number<E: Encoding>(s: &[u8], at: usize) -> usize
    ensures { result ≡ place_of (upper (rest E.encoding s.now at)) component_names }
{
    find_word::<E>(
        false,
        s,
        at,
        b"VCALENDAR\nVEVENT\nVTODO\nVJOURNAL\nVFREEBUSY\nVTIMEZONE\nSTANDARD\nDAYLIGHT\nVALARM\n",
    )
}

fn parameter_1(high: u64, low: u64) -> usize
    ensures { result ≡ lookup high low parameter_rows1 19 }
{
    if (low == 0x61ce) & (high == 0x0) {
        return parameter::CN;
    }
    if (low == 0x3124d2) & (high == 0x0) {
        return parameter::DIR;
    }
    if (low == 0x1a53e645) & (high == 0x0) {
        return parameter::ROLE;
    }
    if (low == 0x1a54eb50) & (high == 0x0) {
        return parameter::RSVP;
    }
    if (low == 0x1a96a4c4) & (high == 0x0) {
        return parameter::TZID;
    }
    if (low == 0xd2833a3c5) & (high == 0x0) {
        return parameter::RANGE;
    }
    parameter::KNOWN
}

fn parameter_2(high: u64, low: u64) -> usize
    ensures { result ≡ lookup high low parameter_rows2 19 }
{
    if (low == 0x60cca94a2d0) & (high == 0x0) {
        return parameter::ALTREP;
    }
    if (low == 0x61d5a966845) & (high == 0x0) {
        return parameter::CUTYPE;
    }
    if (low == 0x6342a966845) & (high == 0x0) {
        return parameter::FBTYPE;
    }
    if (low == 0x66c59b0a2d2) & (high == 0x0) {
        return parameter::MEMBER;
    }
    if (low == 0x31a6d4a966845) & (high == 0x0) {
        return parameter::FMTTYPE;
    }
    if (low == 0x34a2cc83522c4) & (high == 0x0) {
        return parameter::RELATED;
    }
    parameter::KNOWN
}

fn parameter_3(high: u64, low: u64) -> usize
    ensures { result ≡ lookup high low parameter_rows3 19 }
{
    if (low == 0x34a2cca966845) & (high == 0x0) {
        return parameter::RELTYPE;
    }
    if (low == 0x34e2cea8b6159) & (high == 0x0) {
        return parameter::SENT_BY;
    }
    if (low == 0x8b3a1cf8926747) & (high == 0x1) {
        return parameter::ENCODING;
    }
    if (low == 0x8f06a4588b6a4f) & (high == 0x18916645) {
        return parameter::DELEGATED_TO;
    }
    if (low == 0x9906747ab063c5) & (high == 0x1) {
        return parameter::LANGUAGE;
    }
    if (low == 0xa106954a7520d4) & (high == 0x1) {
        return parameter::PARTSTAT;
    }
    if (low == 0xa91622d8d4a7cd) & (high == 0x624599163c1) {
        return parameter::DELEGATED_FROM;
    }
    parameter::KNOWN
}

// The number of a parameter, 19 (KNOWN) where there is none of that name.
pub fn parameter_number<E: Encoding>(s: &[u8], at: usize) -> usize
    ensures { result ≡ place_of (upper (rest E.encoding s.now at)) parameter_names }
{
    let w = pack::<E>(s, at);
    if w.low < 0x60cca94a2d0 {
        return parameter_1(w.high, w.low);
    }
    if w.low < 0x34a2cca966845 {
        return parameter_2(w.high, w.low);
    }
    parameter_3(w.high, w.low)
}
