// A parameter as an element. See specs/Shown.antt.
ghost use Rattle.std.specs.Prelude.{◌≡◌, true};
ghost use Rattle.sink.specs.Sink.{Put};
ghost use Rattle.source.specs.Source.{rest};
ghost use Rattle.read_text_line.specs.Decoded.{values_in};
ghost use Rattle.read_text_parameters.specs.Cutting.{param_read};
ghost use Rattle.write_xml_parameters.specs.Shown.{shown, own_shown};

use crate::value::put_values;
use edition::Edition;
use names::is_word_any_case;
use octets::smaller;
use schema::parameter_number;
use source::Cuttable;
use tags::{put_small_end, put_small_start};

// The parameter whose name stands in `n` from the cursor on, and whose values stand in `s` from the cursor `first` on.
fn put_parameter<E: Cuttable>(
    out: &mut [u8],
    o: usize,
    edition: Edition,
    n: &[u8],
    at: usize,
    s: &[u8],
    first: usize,
) -> usize
    ensures { Put out.old out.new o result
        (shown (record {
          name = rest E.encoding n.now at;
          values = values_in edition E.encoding s.now first;
        })) }
{
    let q = parameter_number::<E>(n, at);
    let a = put_small_start::<E>(out, o, n, at);
    let b = put_values::<E>(out, a, edition, q, s, first);
    put_small_end::<E>(out, b, n, at)
}

// The same, but nothing of VALUE.
fn put_own<E: Cuttable>(
    out: &mut [u8],
    o: usize,
    edition: Edition,
    n: &[u8],
    at: usize,
    s: &[u8],
    first: usize,
) -> usize
    ensures { Put out.old out.new o result
        (own_shown (record {
          name = rest E.encoding n.now at;
          values = values_in edition E.encoding s.now first;
        })) }
{
    let value = is_word_any_case::<E>(n, at, b"VALUE");
    if value {
        return o;
    }
    put_parameter::<E>(out, o, edition, n, at, s, first)
}

// The same of a name from the cursor `name` to the cursor `end`.
pub fn put_cut_own<E: Cuttable>(
    out: &mut [u8],
    o: usize,
    edition: Edition,
    s: &[u8],
    name: usize,
    end: usize,
    first: usize,
) -> usize
    ensures { Put out.old out.new o result
        (own_shown (param_read edition E.encoding s.now name end first)) }
{
    let e = smaller(end, s.len());
    put_own::<E>(out, o, edition, &s[..e], name, s, first)
}
