// The names of components: the value of BEGIN or END.
ghost use Rattle.std.specs.Prelude.{◌≡◌};
ghost use Rattle.octets.specs.Class.{upper};
ghost use Rattle.octets.specs.Words.{same};
ghost use Rattle.source.specs.Source.{rest};
ghost use Rattle.read_text_line.specs.Names.{is_component_name};

use distinct::compare_from;
use names::name_end;
use octets::unit::END;
use read_text_line::is_carried_name;
use source::{Encoding, unit};

// What stands from the cursor on is a name that can be carried.
pub fn is_component_name<E: Encoding>(s: &[u8], at: usize) -> bool
    ensures { result ≡ is_component_name (rest E.encoding s.now at) }
{
    let first = unit::<E>(s, at);
    if first.u == END {
        return false;
    }
    let e = name_end::<E>(s, at);
    let last = unit::<E>(s, e);
    if last.u == END {
        return is_carried_name::<E>(s, at);
    }
    false
}

// Two names are the same in capitals.
pub fn is_same_name<E: Encoding>(s: &[u8], at: usize, t: &[u8], v: usize) -> bool
    ensures { result ≡ same (upper (rest E.encoding s.now at)) (upper (rest E.encoding t.now v)) }
{
    let order = compare_from::<E>(s, at, t, v);
    if order == 0 {
        return true;
    }
    false
}
