// The parameters of a line as an object.
ghost use Rattle.std.specs.Prelude.{◌≡◌, true, [], map};
ghost use Rattle.octets.specs.Words.{joined_by};
ghost use Rattle.octets.specs.Reading.{read_or};
ghost use Rattle.sink.specs.Sink.{Put};
ghost use Rattle.read_text_line.specs.Decoded.{params_in};
ghost use Rattle.text.specs.Parameters.{read_parameters};
ghost use Rattle.json_text.specs.Bytes.{value_separator};
ghost use Rattle.json_text.specs.Write.{object_of};
ghost use Rattle.jcal.specs.WriteJcal.{parameter_json};
ghost use Rattle.write_jcal_parameters.specs.Shown.{members_shown};

use crate::parameter::put_member;
use edition::Edition;
use read_text_line::next_param;
use read_text_parameters::{are_read, is_value_name};
use sink::{put, put_all};
use source::Cuttable;

// The members of all parameters but VALUE.
fn put_each<E: Cuttable>(out: &mut [u8], o: usize, edition: Edition, s: &[u8], at: usize) -> usize
    ensures { Put out.old out.new o result
        (joined_by value_separator (members_shown (params_in edition E.encoding s.now at))) }
{
    let mut q = o;
    let mut started = false;
    let mut c = at;
    while let Ok(Some(p)) = next_param::<E>(s, c) {
        c = p.next;
        if is_value_name::<E>(s, p.name, p.end) {
            continue;
        }
        q = put_member::<E>(out, q, started, edition, s, p.name, p.end, p.first);
        started = true;
    }
    q
}

fn put_object<E: Cuttable>(out: &mut [u8], o: usize, edition: Edition, s: &[u8], at: usize) -> usize
    ensures { Put out.old out.new o result
        (object_of (members_shown (params_in edition E.encoding s.now at))) }
{
    let a = put(out, o, b'{');
    let b = put_each::<E>(out, a, edition, s, at);
    put(out, b, b'}')
}

// The object of the parameters of the line whose name ends at the cursor `e`; an empty one where a parameter is not readable.
pub fn put_parameters<E: Cuttable>(
    out: &mut [u8],
    o: usize,
    edition: Edition,
    s: &[u8],
    e: usize,
) -> usize
    ensures { Put out.old out.new o result
        (object_of (map parameter_json (read_or [] (read_parameters (params_in edition E.encoding s.now e))))) }
{
    if are_read::<E>(edition, s, e) {
        return put_object::<E>(out, o, edition, s, e);
    }
    put_all(out, o, b"{}")
}
