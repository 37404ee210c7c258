// A parameter as a member. See specs/Shown.antt.
ghost use Rattle.std.specs.Prelude.{◌≡◌, true};
ghost use Rattle.octets.specs.Append.{◌⊕◌};
ghost use Rattle.sink.specs.Sink.{Put};
ghost use Rattle.source.specs.Source.{rest};
ghost use Rattle.read_text_line.specs.Decoded.{values_in};
ghost use Rattle.read_text_parameters.specs.Cutting.{param_read};
ghost use Rattle.write_json.specs.Separated.{separator};
ghost use Rattle.write_jcal_parameters.specs.Shown.{shown};

use crate::value::put_values;
use edition::Edition;
use octets::smaller;
use schema::parameter_number;
use sink::put;
use source::Cuttable;
use write_json::{put_separator, put_small_quoted};

// The parameter whose name stands in `n` from the cursor on, and whose values stand in `s` from the cursor `first` on.
fn put_parameter<E: Cuttable>(
    out: &mut [u8],
    o: usize,
    edition: Edition,
    n: &[u8],
    at: usize,
    s: &[u8],
    first: usize,
) -> usize
    ensures { Put out.old out.new o result
        (shown (record {
          name = rest E.encoding n.now at;
          values = values_in edition E.encoding s.now first;
        })) }
{
    let q = parameter_number::<E>(n, at);
    let a = put_small_quoted::<E>(out, o, n, at);
    let b = put(out, a, b':');
    put_values::<E>(out, b, edition, q, s, first)
}

// The same of a name from the cursor `name` to the cursor `end`, behind what separates it from another.
pub fn put_member<E: Cuttable>(
    out: &mut [u8],
    o: usize,
    started: bool,
    edition: Edition,
    s: &[u8],
    name: usize,
    end: usize,
    first: usize,
) -> usize
    ensures { Put out.old out.new o result
        (separator started ⊕ shown (param_read edition E.encoding s.now name end first)) }
{
    let e = smaller(end, s.len());
    let a = put_separator(out, o, started);
    put_parameter::<E>(out, a, edition, &s[..e], name, s, first)
}
