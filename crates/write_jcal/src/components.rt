// The components of a text, or of a component. See specs/Walks.antt.
ghost use Rattle.std.specs.Prelude.{◌-◌, ◌≤◌, length, take};
ghost use Rattle.octets.specs.Ascii.{ascii};
ghost use Rattle.octets.specs.Append.{◌⊕◌};
ghost use Rattle.octets.specs.Class.{upper};
ghost use Rattle.source.specs.Source.{rest};
ghost use Rattle.read_text_line.specs.Ready.{Ready};
ghost use Rattle.sink.specs.Sink.{Put};
ghost use Rattle.calendar.specs.Levels.{shallow};
ghost use Rattle.text_entries.specs.Entries.{entries_at};
ghost use Rattle.write_json.specs.Separated.{separator};
ghost use Rattle.write_jcal.specs.Walks.{name_json, head_json};
ghost use Rattle.write_jcal.specs.Places.{PropertiesPut, ComponentsPut};

use crate::properties::{Walked, put_properties};
use edition::Edition;
use schema::component_number;
use sink::{put, put_all};
use source::{Cuttable, Encoding};
use text_entries::{Kind, bound_at, cut_at_level};
use write_json::{put_separator, put_small_quoted};

// How far a walk has come: the index in the sink, and the cursor in the text, behind the END that ended it or at the text's end.
#[derive(Clone, Copy)]
pub struct Reached {
    pub to: usize,
    pub next: usize,
}

// The beginning of a component's array: what separates it from another, its name, and the bracket before its properties.
fn put_name<E: Encoding>(out: &mut [u8], o: usize, started: bool, s: &[u8], v: usize) -> usize
    ensures { Put out.old out.new o result (separator started ⊕ name_json (rest E.encoding s.now v)) }
{
    let a = put_separator(out, o, started);
    let b = put(out, a, b'[');
    let c = put_small_quoted::<E>(out, b, s, v);
    put_all(out, c, b",[")
}

// What stands before the subcomponents; `left`, the levels of the component and of those inside it. The BEGIN line of the component ends at `e`, its name
// stands there from `v` on, and its other lines begin at `from`.
fn put_head<E: Cuttable>(
    out: &mut [u8],
    o: usize,
    started: bool,
    edition: Edition,
    s: &[u8],
    v: usize,
    e: usize,
    from: usize,
    left: usize,
) -> Walked
    requires { (e ≤ length s.now) × Ready E.encoding s.now from }
    ensures { PropertiesPut edition (shallow (left - 1)) out.old out.new o (separator started ⊕
        head_json (upper (rest E.encoding (take e s.now) v)) (entries_at edition E.encoding s.now from)) E.encoding
        s.now from result }
{
    let k = component_number::<E>(&s[..e], v);
    let a = put_name::<E>(out, o, started, &s[..e], v);
    let b = put_properties::<E>(out, a, edition, k, s, from);
    let whole = b.ahead;
    let ahead = cut_at_level::<E>(edition, s, whole, left);
    let c = put_all(out, b.to, b"],[");
    Walked { to: c, ahead }
}

// What stands behind them.
fn put_tail(out: &mut [u8], o: usize) -> usize
    ensures { Put out.old out.new o result (ascii "]]") }
{
    put_all(out, o, b"]]")
}

// The components that the lines from `from` on begin, `left` levels deep, up to the end of the one that they stand in.
pub fn put_components<E: Cuttable>(
    out: &mut [u8],
    o: usize,
    edition: Edition,
    s: &[u8],
    from: usize,
    left: usize,
) -> Reached
    requires { Ready E.encoding s.now from × (1 ≤ left) }
    ensures { ComponentsPut edition left out.old out.new o E.encoding s.now from result }
{
    let mut p = o;
    let mut started = false;
    let mut at = from;
    while at < s.len() {
        let f = bound_at::<E>(edition, s, at);
        match f.kind {
            Kind::Begin => {
                let l = f.line;
                let h = put_head::<E>(out, p, started, edition, s, l.value, f.end, f.next, left);
                let a = h.ahead;
                if a.bare {
                    p = put_tail(out, h.to);
                    started = true;
                    at = a.next;
                } else {
                    let b = put_components::<E>(out, h.to, edition, s, a.inner, left - 1);
                    p = put_tail(out, b.to);
                    started = true;
                    at = b.next;
                }
            }
            Kind::End => {
                return Reached {
                    to: p,
                    next: f.next,
                };
            }
            Kind::Property => {
                at = f.next;
            }
            Kind::Nothing => {
                at = f.next;
            }
        }
    }
    Reached { to: p, next: at }
}
