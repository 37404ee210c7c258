// The properties of a component. See specs/Properties.antt.
ghost use Rattle.json_text.specs.Tree.{element_list};
ghost use Rattle.read_json.specs.TreeAt.{elements_at};
ghost use Rattle.read_json.specs.Heads.{value_of_head};
ghost use Rattle.read_jcal.specs.Properties.{ArrayAt, EntryAt, ListedAt};

use crate::Stated;
use crate::elements::place_of;
use crate::property::property_fault;
use edition::Edition;
use read_json::kinds::{is_array, is_there};
use read_json::{Head, element_at, element_next};
use refusals::{Fault, Refusal};
use tallies::{Kept, count, none_counted};

// The array at `place`, whose elements stand from `inside` on, in the component of the number `k`.
fn array_entry(
    edition: Edition,
    k: usize,
    s: &[u8],
    place: usize,
    inside: usize,
) -> Result<Stated, Fault>
    ensures { ArrayAt edition k place (element_list (elements_at s.now inside)) result }
{
    match property_fault(edition, k, s, inside) {
        Ok(stated) => Ok(stated),
        Err(refusal) => Err(refusal.at(place)),
    }
}

// An element of the array of properties.
fn entry_at(edition: Edition, k: usize, s: &[u8], h: Head) -> Result<Stated, Fault>
    ensures { EntryAt edition k (value_of_head s.now h) result }
{
    if !is_array(h.kind) {
        return Err(Refusal::Frame.at(place_of(h)));
    }
    array_entry(edition, k, s, h.place, h.next)
}

// What is kept of the properties of a component of the number `k`, which stand from `inside` on.
pub fn properties_verdict(
    edition: Edition,
    k: usize,
    s: &[u8],
    inside: usize,
) -> Result<Kept, Fault>
    ensures { ListedAt edition k s.now inside result }
{
    let mut at = inside;
    let mut kept = none_counted();
    loop {
        let h = element_at(s, at);
        if !is_there(h.kind) {
            return Ok(kept);
        }
        let e = entry_at(edition, k, s, h)?;
        kept = count(kept, e.number, e.action);
        at = element_next(s, h);
    }
}
