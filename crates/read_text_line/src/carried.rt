// Names that can be carried. See specs/Names.antt.
ghost use Rattle.std.specs.Prelude.{◌≡◌};
ghost use Rattle.octets.specs.Ascii.{ascii};
ghost use Rattle.octets.specs.Pick.{◌and◌};
ghost use Rattle.octets.specs.Class.{is_name_char, upper};
ghost use Rattle.octets.specs.Lists.{every};
ghost use Rattle.octets.specs.Runs.{run_of};
ghost use Rattle.octets.specs.Words.{starts};
ghost use Rattle.source.specs.Source.{rest};
ghost use Rattle.read_text_line.specs.Names.{starts_off_name, is_carried_name};
ghost use Rattle.read_text_line.specs.Cursor.{params_at};
ghost use Rattle.read_text_line.specs.Carried.{carries_name};

use crate::param::next_param;
use octets::unit::{HYPHEN, UPPER_L, UPPER_M, UPPER_X};
use octets::{is_digit, upper_unit};
use source::{Encoding, unit};

// A digit or a hyphen is there.
fn starts_off_name<E: Encoding>(s: &[u8], at: usize) -> bool
    ensures { result ≡ starts_off_name (rest E.encoding s.now at) }
{
    let n = unit::<E>(s, at);
    is_digit(n.u) || n.u == HYPHEN
}

// `XML` is there, in any case.
fn starts_xml<E: Encoding>(s: &[u8], at: usize) -> bool
    ensures { result ≡ starts (ascii "XML") (upper (rest E.encoding s.now at)) }
{
    let x = unit::<E>(s, at);
    let xu = upper_unit(x.u);
    if xu == UPPER_X {
        let m = unit::<E>(s, x.next);
        let mu = upper_unit(m.u);
        if mu == UPPER_M {
            let l = unit::<E>(s, m.next);
            let lu = upper_unit(l.u);
            return lu == UPPER_L;
        }
        return false;
    }
    false
}

// The name that stands from the cursor on, whatever follows it, can be carried.
pub fn is_carried_name<E: Encoding>(s: &[u8], at: usize) -> bool
    ensures { result ≡ is_carried_name (rest E.encoding s.now at) }
{
    !starts_off_name::<E>(s, at) && !starts_xml::<E>(s, at)
}

// The names of all parameters from the cursor on can be carried.
fn params_carried<E: Encoding>(s: &[u8], at: usize) -> bool
    ensures { result ≡ every carries_name (params_at E.encoding s.now at) }
{
    let mut c = at;
    while let Ok(Some(p)) = next_param::<E>(s, c) {
        if !is_carried_name::<E>(s, p.name) {
            return false;
        }
        c = p.next;
    }
    true
}

// The name of the line, and those of its parameters, which stand from `e` on, can be carried.
pub fn names_carried<E: Encoding>(s: &[u8], at: usize, e: usize) -> bool
    ensures { result
        ≡ (is_carried_name (run_of is_name_char (rest E.encoding s.now at))
        and every carries_name (params_at E.encoding s.now e)) }
{
    is_carried_name::<E>(s, at) && params_carried::<E>(s, e)
}
