// How often the properties of a component stand: their tallies in an array, one for each of the 46 known properties, counted to 255.
ghost use Rattle.std.specs.Prelude.{◌≡◌, ◌≤◌, eqb, get_or};
ghost use Rattle.octets.specs.Pick.{◌and◌, ◌or◌};
ghost use Rattle.schema.specs.Arrays.{bumped};
ghost use Rattle.schema.specs.Property as property;
ghost use Rattle.schema.specs.Completing.{often_in, half_often, all_often, list_of, alarm_often, often_at, pairs_at, complete_at, method_at};

use crate::table::{Entry, HALF, first_half, second_half};
use crate::{Action, component, property};
use bits::holds;

// One more of the property `p`; of an unrecognised one, nothing.
pub fn bump(t: [u8; 46], p: usize) -> [u8; 46]
    ensures { result ≡ bumped p t }
{
    let mut u = t;
    if p < property::KNOWN {
        let c = u[p];
        if c < 255 {
            u[p] = c + 1;
            return u;
        }
        return u;
    }
    u
}

// A property stands `n` times, and by the list `l` it may.
#[tactic(auto, using(octets::specs::laws::Pick::branching_joined), unfolding(crate::specs::Completing::often_in))]
fn is_often(e: Entry, l: usize, n: u8) -> bool
    ensures { result ≡ often_in e l n }
{
    if n == 0 {
        return !holds(e.least as u32, l);
    }
    if holds(e.many as u32, l) {
        return true;
    }
    holds(e.once as u32, l) && n == 1
}

// Every property of a half of the table, whose first has the number `from`, stands as often as the list `l` says.
fn half_often(rows: [Entry; 23], from: usize, l: usize, t: [u8; 46]) -> bool
    requires { from ≤ 23 }
    ensures { result ≡ half_often rows from l t }
{
    let mut n = 0;
    while n < HALF {
        if !is_often(rows[n], l, t[from + n]) {
            return false;
        }
        n += 1;
    }
    true
}

// Every property stands as often as the list `l` says.
fn all_often(l: usize, t: [u8; 46]) -> bool
    ensures { result ≡ all_often l t }
{
    half_often(first_half(), 0, l, t) && half_often(second_half(), HALF, l, t)
}

// The number of the list of an action.
fn list_of(action: Action) -> usize
    ensures { result ≡ list_of action }
{
    match action {
        Action::Audio => component::VALARM,
        Action::Display => component::VALARM + 1,
        Action::Email => component::VALARM + 2,
    }
}

// The same by the list of an alarm's action.
fn alarm_often(action: Option<Action>, t: [u8; 46]) -> bool
    ensures { result ≡ alarm_often action t }
{
    match action {
        Some(named) => all_often(list_of(named), t),
        None => false,
    }
}

// The same by the list of a component, which for a VALARM its ACTION names.
fn often_at(k: usize, t: [u8; 46], action: Option<Action>) -> bool
    ensures { result ≡ often_at k t action }
{
    if k == component::VALARM {
        return alarm_often(action, t);
    }
    if k < component::KNOWN {
        return all_often(k, t);
    }
    true
}

// VEVENT: DTSTART, unless the calendar has METHOD.
fn event_start(t: [u8; 46], method: bool) -> bool
    ensures { result ≡ (method or eqb (get_or t property.DTSTART 0) 1) }
{
    method || t[property::DTSTART] == 1
}

// VEVENT: the same, and not both DTEND and DURATION.
fn event_pair(t: [u8; 46], method: bool) -> bool
    ensures { result
        ≡ ((method or eqb (get_or t property.DTSTART 0) 1)
        and (eqb (get_or t property.DTEND 0) 0 or eqb (get_or t property.DURATION 0) 0)) }
{
    event_start(t, method) && (t[property::DTEND] == 0 || t[property::DURATION] == 0)
}

// VTODO: DURATION only with DTSTART and without DUE.
fn todo_pair(t: [u8; 46]) -> bool
    ensures { result
        ≡ (eqb (get_or t property.DURATION 0) 0
        or (eqb (get_or t property.DTSTART 0) 1 and eqb (get_or t property.DUE 0) 0)) }
{
    t[property::DURATION] == 0 || (t[property::DTSTART] == 1 && t[property::DUE] == 0)
}

// VALARM: DURATION and REPEAT, or neither.
fn alarm_pair(t: [u8; 46]) -> bool
    ensures { result ≡ eqb (get_or t property.DURATION 0) (get_or t property.REPEAT 0) }
{
    t[property::DURATION] == t[property::REPEAT]
}

// The pairs of a component; of a VTIMEZONE, that it has a subcomponent.
fn pairs_at(k: usize, t: [u8; 46], inner: bool, method: bool) -> bool
    ensures { result ≡ pairs_at k t (record { inner = inner; method = method }) }
{
    if k == component::VEVENT {
        return event_pair(t, method);
    }
    if k == component::VTODO {
        return todo_pair(t);
    }
    if k == component::VTIMEZONE {
        return inner;
    }
    if k == component::VALARM {
        return alarm_pair(t);
    }
    true
}

// Whether the tallies of the component `k` are as they must be: `action` is what its ACTION names, if it names one; `inner`, whether it has a subcomponent;
// `method`, whether the calendar round it has METHOD.
pub fn complete_counts(
    k: usize,
    t: [u8; 46],
    action: Option<Action>,
    inner: bool,
    method: bool,
) -> bool
    ensures { result ≡ complete_at k t action (record { inner = inner; method = method }) }
{
    often_at(k, t, action) && pairs_at(k, t, inner, method)
}

// Whether METHOD stands in the calendar of what is inside the component `k` with these tallies; `method`, whether it stands in the calendar round it.
pub fn method_for(k: usize, t: [u8; 46], method: bool) -> bool
    ensures { result ≡ method_at k t method }
{
    if k == component::VCALENDAR {
        return 1 <= t[property::METHOD];
    }
    method
}
