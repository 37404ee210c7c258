// BINARY, CAL-ADDRESS, RECUR, TEXT, URI and values of no known type: whether there is a value from the cursor to the end.
ghost use Rattle.std.specs.Prelude.{◌≡◌};
ghost use Rattle.octets.specs.Reading.{is_read};
ghost use Rattle.calendar.specs.Calendar.{format_of, BINARY, CAL-ADDRESS, RECUR, TEXT, URI, UNKNOWN};
ghost use Rattle.source.specs.Source.{rest};
ghost use Rattle.values.specs.ReadValue.{read_value};
ghost use Rattle.values.specs.ValueAt.{is_read_at};

use recur::rule::read_rule;
use source::{Cut, Encoding, Folded, Plain};
use texts::{read_binary, read_one_text, read_unknown, read_uri};

pub fn is_binary<E: Encoding>(xcal: bool, s: &[u8], at: usize) -> bool
    ensures { result ≡ is_read (read_value (format_of xcal) BINARY (rest E.encoding s.now at)) }
{
    read_binary::<E>(xcal, s, at)
}

pub fn is_cal_address<E: Encoding>(xcal: bool, s: &[u8], at: usize) -> bool
    ensures { result ≡ is_read (read_value (format_of xcal) CAL-ADDRESS (rest E.encoding s.now at)) }
{
    read_uri::<E>(s, at)
}

// RECUR is made of elements in XML, and in text it is read in an encoding that can be cut.
pub fn is_recur<E: Encoding>(xcal: bool, s: &[u8], at: usize) -> bool
    ensures { result ≡ is_read_at xcal E.encoding RECUR (rest E.encoding s.now at) }
{
    if xcal {
        return false;
    }
    match E::cut() {
        Some(Cut::Plain) => read_rule::<Plain>(s, at),
        Some(Cut::Folded) => read_rule::<Folded>(s, at),
        None => false,
    }
}

// In XML any characters are a TEXT.
pub fn is_text<E: Encoding>(xcal: bool, s: &[u8], at: usize) -> bool
    ensures { result ≡ is_read (read_value (format_of xcal) TEXT (rest E.encoding s.now at)) }
{
    if xcal {
        return true;
    }
    read_one_text::<E>(s, at)
}

pub fn is_uri<E: Encoding>(xcal: bool, s: &[u8], at: usize) -> bool
    ensures { result ≡ is_read (read_value (format_of xcal) URI (rest E.encoding s.now at)) }
{
    read_uri::<E>(s, at)
}

pub fn is_unknown<E: Encoding>(xcal: bool, s: &[u8], at: usize) -> bool
    ensures { result ≡ is_read (read_value (format_of xcal) UNKNOWN (rest E.encoding s.now at)) }
{
    read_unknown::<E>(s, at)
}
