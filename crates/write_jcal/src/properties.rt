// The properties of a component. See specs/Walks.antt.
ghost use Rattle.std.specs.Prelude.{◌≡◌, true, ◌≤◌, length};
ghost use Rattle.octets.specs.Append.{◌⊕◌};
ghost use Rattle.octets.specs.Words.{joined_by};
ghost use Rattle.read_text_line.specs.Ready.{Ready};
ghost use Rattle.sink.specs.Sink.{Put};
ghost use Rattle.schema.specs.Numbers.{component_name};
ghost use Rattle.json_text.specs.Bytes.{value_separator};
ghost use Rattle.text_entries.specs.Entries.{entries_at};
ghost use Rattle.text_entries.specs.Levels.{whole};
ghost use Rattle.write_json.specs.Separated.{separator, following};
ghost use Rattle.write_jcal_property.specs.Property.{parts_json};
ghost use Rattle.write_jcal.specs.Walks.{own_json};
ghost use Rattle.write_jcal.specs.Places.{PropertiesPut, LeadingPut};

use edition::Edition;
use read_text_line::LineCursors;
use source::Cuttable;
use text_entries::{Ahead, Kind, entry_at, pass_component};
use write_jcal_property::put_property;
use write_json::put_separator;

// What a walk over the properties before the first subcomponent came to: the index in the sink, whether one was written, and what stands ahead.
#[derive(Clone, Copy)]
pub struct Led {
    pub to: usize,
    pub started: bool,
    pub ahead: Ahead,
}

// What a walk over a component's properties came to: the index in the sink, and what stands ahead.
#[derive(Clone, Copy)]
pub struct Walked {
    pub to: usize,
    pub ahead: Ahead,
}

// A property behind what separates it from another.
fn put_next_property<E: Cuttable>(
    out: &mut [u8],
    o: usize,
    started: bool,
    edition: Edition,
    k: usize,
    s: &[u8],
    l: LineCursors,
) -> usize
    requires { l.parameters ≤ length s.now }
    ensures { Put out.old out.new o result (separator started ⊕ parts_json edition k E.encoding s.now l) }
{
    let a = put_separator(out, o, started);
    put_property::<E>(out, a, edition, k, s, l)
}

// The properties of the component of the number `k` whose lines begin at `from`, up to its first subcomponent.
fn put_leading<E: Cuttable>(
    out: &mut [u8],
    o: usize,
    edition: Edition,
    k: usize,
    s: &[u8],
    from: usize,
) -> Led
    requires { Ready E.encoding s.now from }
    ensures { LeadingPut edition out.old out.new o k E.encoding s.now from result }
{
    let mut p = o;
    let mut started = false;
    let mut at = from;
    while at < s.len() {
        let f = entry_at::<E>(edition, s, at);
        match f.kind {
            Kind::Begin => {
                let ahead = Ahead {
                    inner: at,
                    bare: false,
                    next: at,
                };
                return Led {
                    to: p,
                    started,
                    ahead,
                };
            }
            Kind::End => {
                let ahead = Ahead {
                    inner: at,
                    bare: true,
                    next: f.next,
                };
                return Led {
                    to: p,
                    started,
                    ahead,
                };
            }
            Kind::Property => {
                let l = f.line;
                p = put_next_property::<E>(out, p, started, edition, k, &s[..f.end], l);
                started = true;
                at = f.next;
            }
            Kind::Nothing => {
                at = f.next;
            }
        }
    }
    let ahead = Ahead {
        inner: at,
        bare: true,
        next: at,
    };
    Led {
        to: p,
        started,
        ahead,
    }
}

// Those from `from` on, between and behind its subcomponents too.
fn put_following<E: Cuttable>(
    out: &mut [u8],
    o: usize,
    before: bool,
    edition: Edition,
    k: usize,
    s: &[u8],
    from: usize,
) -> usize
    requires { Ready E.encoding s.now from }
    ensures { Put out.old out.new o result
        (following before (own_json (component_name k) (entries_at edition E.encoding s.now from))) }
{
    let mut p = o;
    let mut started = before;
    let mut at = from;
    while at < s.len() {
        let f = entry_at::<E>(edition, s, at);
        match f.kind {
            Kind::Begin => {
                at = pass_component::<E>(edition, s, f.next);
            }
            Kind::End => {
                return p;
            }
            Kind::Property => {
                let l = f.line;
                p = put_next_property::<E>(out, p, started, edition, k, &s[..f.end], l);
                started = true;
                at = f.next;
            }
            Kind::Nothing => {
                at = f.next;
            }
        }
    }
    p
}

// All of them: those before the first subcomponent, and the rest where there is one.
pub fn put_properties<E: Cuttable>(
    out: &mut [u8],
    o: usize,
    edition: Edition,
    k: usize,
    s: &[u8],
    from: usize,
) -> Walked
    requires { Ready E.encoding s.now from }
    ensures { PropertiesPut edition whole out.old out.new o
        (joined_by value_separator (own_json (component_name k) (entries_at edition E.encoding s.now from))) E.encoding
        s.now from result }
{
    let a = put_leading::<E>(out, o, edition, k, s, from);
    let ahead = a.ahead;
    if ahead.bare {
        return Walked { to: a.to, ahead };
    }
    let b = put_following::<E>(out, a.to, a.started, edition, k, s, ahead.inner);
    Walked { to: b, ahead }
}
