// Names in jCal: in small letters, and such as can be carried (refusal 5). See specs/Names.antt.
ghost use Rattle.std.specs.Prelude.{◌≡◌, ◌<◌, length};
ghost use Rattle.octets.specs.Scan.{all_of};
ghost use Rattle.octets.specs.Lists.{any_one};
ghost use Rattle.source.specs.Source.{rest};
ghost use Rattle.json_text.specs.Tree.{member_list};
ghost use Rattle.jcal.specs.Property.{is_bad_name, is_bad_parameter};
ghost use Rattle.read_json.specs.TreeAt.{members_at, string_at};
ghost use Rattle.read_jcal_parameters.specs.Names.{is_small_name_char, is_bad_parameter_name};

use crate::cursor::cursor_of;
use names::is_word;
use octets::unit::END;
use octets::{is_capital, is_name_char};
use read_json::member_at;
use read_text_line::is_carried_name;
use source::{JsonCharacters, quoted_unit};

// Each character from the cursor on is one of a name, and no capital.
fn is_small_name(s: &[u8], at: usize) -> bool
    ensures { result ≡ all_of is_small_name_char (rest 3 s.now at) }
{
    let mut c = at;
    loop {
        let n = quoted_unit(s, c);
        if n.u == END {
            return true;
        }
        if !is_name_char(n.u) {
            return false;
        }
        if is_capital(n.u) {
            return false;
        }
        c = n.next;
    }
}

// The characters from the cursor on are no name, have capitals, or can't be carried.
fn is_bad_from(s: &[u8], at: usize) -> bool
    ensures { result ≡ is_bad_name (rest 3 s.now at) }
{
    let n = quoted_unit(s, at);
    n.u == END || !is_small_name(s, at) || !is_carried_name::<JsonCharacters>(s, at)
}

// The same of the string whose quotation mark stands at `place`.
pub fn is_bad_name(s: &[u8], place: usize) -> bool
    requires { place < length s.now }
    ensures { result ≡ is_bad_name (string_at s.now place) }
{
    let c = cursor_of(s, place);
    is_bad_from(s, c)
}

// The name of a parameter is bad, or `value`.
fn is_bad_parameter(s: &[u8], place: usize) -> bool
    requires { place < length s.now }
    ensures { result ≡ is_bad_parameter_name (string_at s.now place) }
{
    let c = cursor_of(s, place);
    is_bad_from(s, c) || is_word::<JsonCharacters>(s, c, b"value")
}

// A parameter from `from` on has such a name.
pub fn names_bad(s: &[u8], from: usize) -> bool
    ensures { result ≡ any_one is_bad_parameter (member_list (members_at s.now from)) }
{
    let mut c = from;
    while let Some(m) = member_at(s, c) {
        if is_bad_parameter(s, m.name) {
            return true;
        }
        c = m.next;
    }
    false
}
