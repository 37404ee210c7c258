// How many of the first elements have names that are all different. See specs/Fresh.antt.
ghost use Rattle.std.specs.Prelude.{◌≡◌, true, [], ◌≤◌};
ghost use Rattle.octets.specs.Lists.{distinct};
ghost use Rattle.xml.specs.NodesAt.{nodes_at};
ghost use Rattle.distinct.specs.Listed.{word_at, listed};
ghost use Rattle.read_xml_parameters.specs.Fresh.{first_names, Collected};

use crate::children::next_child;
use distinct::{are_distinct, keep};
use source::Plain;

// Collects the names of the elements from `inside` on by their places: how many. Where there is no room for one, it is 0.
fn collect(s: &[u8], inside: usize, from: &mut [u16], to: &mut [u16]) -> usize
    ensures { Collected s.now inside from.new to.new result }
{
    let mut c = inside;
    let mut k = 0;
    loop {
        let n = next_child(s, c);
        if n.there {
            let kept = keep(from, to, k, n.name, n.name_end);
            if kept {
                c = n.next;
                k += 1;
            } else {
                return 0;
            }
        } else {
            return k;
        }
    }
}

// How many of the first `n` words are distinct: all, or as many as a search by halves finds.
fn longest(s: &[u8], from: &[u16], to: &[u16], n: usize) -> usize
    ensures { (result ≤ n) × (distinct (listed result (word_at 0 s.now from.now to.now) []) ≡ true) }
{
    let all = are_distinct::<Plain>(s, from, to, n);
    if all {
        return n;
    }
    let mut low = 0;
    let mut high = n;
    while 1 < high - low {
        let half = low + (high - low) / 2;
        let some = are_distinct::<Plain>(s, from, to, half);
        if some {
            low = half;
        } else {
            high = half;
        }
    }
    low
}

fn count_kept(s: &[u8], inside: usize, from: &mut [u16], to: &mut [u16]) -> usize
    ensures { distinct (first_names (nodes_at s.now inside) result) ≡ true }
{
    let n = collect(s, inside, from, to);
    longest(s, from, to, n)
}

// How many of the first elements from `inside` on have names that are all different, in any case: of 65,535 bytes there is room for all.
fn count_fresh(s: &[u8], inside: usize) -> usize
    ensures { distinct (first_names (nodes_at s.now inside) result) ≡ true }
{
    let mut from = [0u16; 21846];
    let mut to = [0u16; 21846];
    count_kept(s, inside, &mut from, &mut to)
}

// The same behind `i` elements, of which `n` are known: they are counted when the seventeenth element is met.
pub fn known_fresh(s: &[u8], inside: usize, i: usize, n: usize) -> usize
    requires { distinct (first_names (nodes_at s.now inside) n) ≡ true }
    ensures { distinct (first_names (nodes_at s.now inside) result) ≡ true }
{
    if i == 16 {
        return count_fresh(s, inside);
    }
    n
}
