// RECUR: an object, a member for each part, in any order. See specs/Members.antt.
ghost use Rattle.std.specs.Prelude.{◌≡◌};
ghost use Rattle.octets.specs.Reading.{is_read};
ghost use Rattle.json_text.specs.Tree.{member_list};
ghost use Rattle.jcal.specs.Values.{read_recur};
ghost use Rattle.read_json.specs.TreeAt.{members_at};
ghost use Rattle.read_jcal_value.specs.Members.{whole_in};

use crate::items::{is_part, part_at};
use bits::{holds, insert};
use read_json::member_at;
use recur::part;

// FREQ is seen; UNTIL and COUNT are not both seen.
fn is_whole(seen: u32) -> bool
    ensures { result ≡ whole_in seen }
{
    holds(seen, part::FREQ) && !(holds(seen, part::UNTIL) && holds(seen, part::COUNT))
}

// The object whose content begins at `from`.
pub fn is_rule(s: &[u8], from: usize) -> bool
    ensures { result ≡ is_read (read_recur (member_list (members_at s.now from))) }
{
    let mut seen: u32 = 0;
    let mut c = from;
    while let Some(m) = member_at(s, c) {
        let i = part_at(s, m.name);
        if !is_part(i, s, m.next) {
            return false;
        }
        if holds(seen, i) {
            return false;
        }
        seen = insert(seen, i);
        c = m.next;
    }
    is_whole(seen)
}
