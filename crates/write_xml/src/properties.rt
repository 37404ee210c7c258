// The properties of a component. See specs/Walks.antt.
ghost use Rattle.octets.specs.Ascii.{ascii};
ghost use Rattle.read_text_line.specs.Ready.{Ready};
ghost use Rattle.sink.specs.Sink.{Put};
ghost use Rattle.xml.specs.Escape.{element_of};
ghost use Rattle.schema.specs.Numbers.{component_name};
ghost use Rattle.text_entries.specs.Entries.{entries_at};
ghost use Rattle.text_entries.specs.Levels.{whole};
ghost use Rattle.write_xml.specs.Walks.{own_xml};
ghost use Rattle.write_xml.specs.Places.{PropertiesPut, LeadingPut};

use edition::Edition;
use markup::element;
use source::Cuttable;
use tags::{put_end_tag, put_start_tag};
use text_entries::{Ahead, Kind, entry_at, pass_component};
use write_xml_property::put_property;

// What a walk over a component's properties came to: the index in the sink, and what stands ahead.
#[derive(Clone, Copy)]
pub struct Walked {
    pub to: usize,
    pub ahead: Ahead,
}

// The properties of the component of the number `k` whose lines begin at `from`, up to its first subcomponent.
fn put_leading<E: Cuttable>(
    out: &mut [u8],
    o: usize,
    edition: Edition,
    k: usize,
    s: &[u8],
    from: usize,
) -> Walked
    requires { Ready E.encoding s.now from }
    ensures { LeadingPut edition out.old out.new o k E.encoding s.now from result }
{
    let mut p = o;
    let mut at = from;
    while at < s.len() {
        let f = entry_at::<E>(edition, s, at);
        match f.kind {
            Kind::Begin => {
                let ahead = Ahead {
                    inner: at,
                    bare: false,
                    next: at,
                };
                return Walked { to: p, ahead };
            }
            Kind::End => {
                let ahead = Ahead {
                    inner: at,
                    bare: true,
                    next: f.next,
                };
                return Walked { to: p, ahead };
            }
            Kind::Property => {
                let l = f.line;
                p = put_property::<E>(out, p, edition, k, &s[..f.end], l);
                at = f.next;
            }
            Kind::Nothing => {
                at = f.next;
            }
        }
    }
    let ahead = Ahead {
        inner: at,
        bare: true,
        next: at,
    };
    Walked { to: p, ahead }
}

// Those from `from` on, between and behind its subcomponents too.
fn put_following<E: Cuttable>(
    out: &mut [u8],
    o: usize,
    edition: Edition,
    k: usize,
    s: &[u8],
    from: usize,
) -> usize
    requires { Ready E.encoding s.now from }
    ensures { Put out.old out.new o result
        (own_xml (component_name k) (entries_at edition E.encoding s.now from)) }
{
    let mut p = o;
    let mut at = from;
    while at < s.len() {
        let f = entry_at::<E>(edition, s, at);
        match f.kind {
            Kind::Begin => {
                at = pass_component::<E>(edition, s, f.next);
            }
            Kind::End => {
                return p;
            }
            Kind::Property => {
                let l = f.line;
                p = put_property::<E>(out, p, edition, k, &s[..f.end], l);
                at = f.next;
            }
            Kind::Nothing => {
                at = f.next;
            }
        }
    }
    p
}

// All of them: those before the first subcomponent, and the rest where there is one.
fn put_properties<E: Cuttable>(
    out: &mut [u8],
    o: usize,
    edition: Edition,
    k: usize,
    s: &[u8],
    from: usize,
) -> Walked
    requires { Ready E.encoding s.now from }
    ensures { PropertiesPut edition whole out.old out.new o
        (own_xml (component_name k) (entries_at edition E.encoding s.now from)) E.encoding s.now from result }
{
    let a = put_leading::<E>(out, o, edition, k, s, from);
    let ahead = a.ahead;
    if ahead.bare {
        return a;
    }
    let b = put_following::<E>(out, a.to, edition, k, s, ahead.inner);
    Walked { to: b, ahead }
}

// The same, as the element `properties`.
pub fn put_properties_element<E: Cuttable>(
    out: &mut [u8],
    o: usize,
    edition: Edition,
    k: usize,
    s: &[u8],
    from: usize,
) -> Walked
    requires { Ready E.encoding s.now from }
    ensures { PropertiesPut edition whole out.old out.new o
        (element_of (ascii "properties") (own_xml (component_name k) (entries_at edition E.encoding s.now from))) E.encoding
        s.now from result }
{
    let a = put_start_tag(out, o, &element::PROPERTIES);
    let b = put_properties::<E>(out, a, edition, k, s, from);
    let c = put_end_tag(out, b.to, &element::PROPERTIES);
    let ahead = b.ahead;
    Walked { to: c, ahead }
}
