// GEO and REQUEST-STATUS, which have arrays of their own. See crate jcal, specs/Values.antt.
ghost use Rattle.std.specs.Prelude.{◌≡◌, List, [], ◌∷◌, map, ℕ, ◌≤◌, length, Some};
ghost use Rattle.octets.specs.Pick.{pick};
ghost use Rattle.octets.specs.Append.{◌⊕◌};
ghost use Rattle.octets.specs.Words.{joined_by};
ghost use Rattle.octets.specs.Reading.{and_then, read_each};
ghost use Rattle.calendar.specs.Calendar.{Decimal, Value};
ghost use Rattle.sink.specs.Sink.{Put};
ghost use Rattle.numbers.specs.Float.{read_float, write_float};
ghost use Rattle.texts.specs.Text.{write_text};
ghost use Rattle.values.specs.WriteValue.{write_value};
ghost use Rattle.json_text.specs.Tree.{first_of};
ghost use Rattle.json_text.specs.Kinds.{as_string, as_number};
ghost use Rattle.jcal.specs.Values.{read_geo, read_status};
ghost use Rattle.read_json.specs.TreeAt.{elements_at};
ghost use Rattle.read_json.specs.Heads.{value_of_head};
ghost use Rattle.write_text_jcal_values.specs.Elements.{list_at};
ghost use Rattle.write_text_jcal_values.specs.laws.Elements.{Spans};

use crate::elements::skip;
use numbers::float::put_float;
use read_json::kinds::is_there;
use read_json::{Head, element_at, element_next};
use sink::put_all;
use source::{JsonCharacters, Plain};
use texts::put_text_escaped;
use write_text_pieces::put_between;

// The FLOAT that stands first from `at` on, where it is one.
fn put_coordinate(out: &mut [u8], o: usize, s: &[u8], at: usize) -> usize
    ensures { (d : Decimal) →
        and_then (as_number (first_of (elements_at s.now at))) read_float ≡ Some d →
        Put out.old out.new o result (write_float d) }
{
    let h = element_at(s, at);
    put_float::<Plain>(out, o, &s[..h.next], h.place)
}

// The value of GEO whose array's content begins at `inside`.
pub fn put_geo(out: &mut [u8], o: usize, s: &[u8], inside: usize) -> usize
    ensures { (v : Value) →
        read_geo (list_at s.now inside) ≡ Some v →
        Put out.old out.new o result (write_value v) }
{
    let second = skip(s, inside, 1);
    let a = put_coordinate(out, o, s, inside);
    let b = put_all(out, a, b";");
    put_coordinate(out, b, s, second)
}

// A TEXT, behind a semicolon where it is not the first.
fn put_one_text(out: &mut [u8], o: usize, started: bool, s: &[u8], h: Head) -> usize
    requires { (length s.now ≤ 65535) × Spans s.now h }
    ensures { (l : List ℕ) →
        as_string (value_of_head s.now h) ≡ Some l →
        Put out.old out.new o result (pick started (59 ∷ []) [] ⊕ write_text l) }
{
    let a = put_between(out, o, started, b';');
    put_text_escaped::<JsonCharacters>(out, a, s, 2 * (h.place + 1))
}

// All of them, from `from` on.
fn put_texts(out: &mut [u8], o: usize, s: &[u8], from: usize) -> usize
    requires { length s.now ≤ 65535 }
    ensures { (ls : List (List ℕ)) →
        read_each as_string (list_at s.now from) ≡ Some ls →
        Put out.old out.new o result (joined_by 59 (map write_text ls)) }
{
    let mut q = o;
    let mut at = from;
    let mut started = false;
    loop {
        let h = element_at(s, at);
        let kind = h.kind;
        let there = is_there(kind);
        if there {
            q = put_one_text(out, q, started, s, h);
            started = true;
            at = element_next(s, h);
        } else {
            return q;
        }
    }
}

// The value of REQUEST-STATUS whose array's content begins at `inside`.
pub fn put_status(out: &mut [u8], o: usize, s: &[u8], inside: usize) -> usize
    requires { length s.now ≤ 65535 }
    ensures { (v : Value) →
        and_then (read_each as_string (list_at s.now inside)) read_status ≡ Some v →
        Put out.old out.new o result (write_value v) }
{
    put_texts(out, o, s, inside)
}
