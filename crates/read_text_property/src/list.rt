// Lists of values, from a cursor to the end. See specs/Listed.antt.
ghost use Rattle.std.specs.Prelude.{◌≡◌, true};
ghost use Rattle.octets.specs.Words.{cut_at};
ghost use Rattle.octets.specs.Reading.{is_read};
ghost use Rattle.source.specs.Source.{rest, Within};
ghost use Rattle.schema.specs.Numbers.{type_at};
ghost use Rattle.texts.specs.TextList.{read_texts};
ghost use Rattle.text.specs.Values.{read_listed};
ghost use Rattle.read_text_property.specs.Listed.{each_value};
ghost use Rattle.read_text_property.specs.ValuesAt.{values_read};

use octets::unit::{COMMA, END};
use recur::rule::byte_end;
use schema::value_type;
use source::{Cuttable, Encoding, unit};
use texts::read_text;
use values::read_value;

// Each piece between commas is a value.
fn read_pieces<E: Encoding>(t: usize, s: &[u8], at: usize) -> Option<usize>
    requires { Within E.encoding s.now at }
    ensures { result ≡ values_read t (each_value (type_at t) (cut_at 44 (rest E.encoding s.now at))) }
{
    let mut c = at;
    loop {
        let e = byte_end::<E>(COMMA, s, c);
        let Some(v) = read_value::<E>(false, t, &s[..e], c) else {
            return None;
        };
        let n = unit::<E>(s, e);
        if n.u == END {
            return Some(t);
        }
        c = n.next;
    }
}

// The same from any cursor: past the end stands one empty piece.
fn read_each<E: Cuttable>(t: usize, s: &[u8], at: usize) -> Option<usize>
    ensures { result ≡ values_read t (each_value (type_at t) (cut_at 44 (rest E.encoding s.now at))) }
{
    if at <= s.len() {
        return read_pieces::<E>(t, s, at);
    }
    let Some(v) = read_value::<E>(false, t, s, at) else {
        return None;
    };
    Some(t)
}

// A list of TEXT.
fn read_texts<E: Encoding>(t: usize, s: &[u8], at: usize) -> Option<usize>
    ensures { result ≡ values_read t (is_read (read_texts (rest E.encoding s.now at))) }
{
    if read_text::<E>(COMMA, s, at) {
        Some(t)
    } else {
        None
    }
}

// A list of TEXT, or of another type.
pub fn read_listed<E: Cuttable>(t: usize, s: &[u8], at: usize) -> Option<usize>
    ensures { result ≡ values_read t (is_read (read_listed (type_at t) (rest E.encoding s.now at))) }
{
    if t == value_type::TEXT {
        return read_texts::<E>(t, s, at);
    }
    read_each::<E>(t, s, at)
}
