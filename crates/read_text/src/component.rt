// A component, from the line behind its BEGIN to its END.
ghost use Rattle.std.specs.Prelude.{◌≡◌, ◌<◌, eqb, ltb, length};
ghost use Rattle.octets.specs.Pick.{pick};
ghost use Rattle.octets.specs.Class.{upper};
ghost use Rattle.source.specs.Source.{rest};
ghost use Rattle.names.specs.Table.{place_of};
ghost use Rattle.schema.specs.Components.{component_names};
ghost use Rattle.schema.specs.Property.{ACTION};
ghost use Rattle.read_text_line.specs.Ready.{Ready};
ghost use Rattle.read_text.specs.Turns.{Turned, Body};

use crate::line::line_kind;
use crate::{Kind, Turn};
use edition::Edition;
use read_text_line::line_end;
use refusals::{Fault, Refusal};
use schema::{Action, bump, complete_counts, method_for, property};
use source::Cuttable;

// The line at a place in the component of the number `k`, whose name stands in `name` from `v` on; `left`, the levels that are left in it;
// `inner`, whether a subcomponent has come.
fn next_line<E: Cuttable>(
    edition: Edition,
    k: usize,
    name: &[u8],
    v: usize,
    left: usize,
    inner: bool,
    s: &[u8],
    at: usize,
) -> Turn
    requires { (k ≡ place_of (upper (rest E.encoding name.now v)) component_names)
        × Ready E.encoding s.now at
        × (at < length s.now) }
    ensures { Turned edition (upper (rest E.encoding name.now v)) (ltb 0 left) inner E.encoding s.now at result }
{
    let Some(ending) = line_end::<E>(s, at) else {
        return Turn {
            kind: Err(Refusal::Line.at(at)),
            end: s.len(),
            next: s.len(),
        };
    };
    let kind = line_kind::<E>(edition, k, name, v, left, inner, &s[..ending.end], at);
    Turn {
        kind,
        end: ending.end,
        next: ending.next,
    }
}

// The action that ACTION names behind a property of the number `p`.
fn action_after(p: usize, a: Option<Action>, last: Option<Action>) -> Option<Action>
    ensures { result ≡ pick (eqb p ACTION) a last }
{
    if p == property::ACTION {
        return a;
    }
    last
}

// The component of the number `k`, whose name stands in `name` from `v` on, from the line behind its BEGIN on; `left`, the levels that are left in it;
// `method`, whether the calendar round it has METHOD. The place behind it.
pub fn body<E: Cuttable>(
    edition: Edition,
    s: &[u8],
    from: usize,
    k: usize,
    name: &[u8],
    v: usize,
    left: usize,
    method: bool,
) -> Result<usize, Fault>
    requires { Ready E.encoding s.now from × (k ≡ place_of (upper (rest E.encoding name.now v)) component_names) }
    ensures { Body edition (upper (rest E.encoding name.now v)) left method E.encoding s.now from result }
{
    let mut at = from;
    // One for each known property.
    let mut counts = [0u8; 46];
    let mut action = None;
    let mut inner = false;
    while at < s.len() {
        let l = next_line::<E>(edition, k, name, v, left, inner, s, at);
        match l.kind? {
            Kind::Starts(n, w) => {
                let inside = method_for(k, counts, method);
                let next = body::<E>(edition, s, l.next, n, &s[..l.end], w, left - 1, inside)?;
                inner = true;
                at = next;
            }
            Kind::Stops => {
                let complete = complete_counts(k, counts, action, inner, method);
                if complete {
                    return Ok(l.next);
                }
                return Err(Refusal::Count.at(at));
            }
            Kind::Holds(p, a) => {
                let more = bump(counts, p);
                counts = more;
                action = action_after(p, a, action);
                at = l.next;
            }
        }
    }
    Err(Refusal::Frame.at(s.len()))
}
