// Parts of a parameter written. See specs/Write.antt.
ghost use Rattle.octets.specs.Class.{upper};
ghost use Rattle.source.specs.Source.{rest};
ghost use Rattle.sink.specs.Sink.{Put};
ghost use Rattle.read_text_line.specs.Write.{write_param_value};
ghost use Rattle.read_text_line.specs.Decoded.{encoded_value};
ghost use Rattle.read_text_line.specs.Written.{opening};

use crate::encoded::put_encoded;
use edition::Edition;
use names::put_upper;
use sink::put;
use source::Encoding;

// A semicolon, the name in capitals that stands from the cursor on, an equals sign.
pub fn put_param_name<E: Encoding>(out: &mut [u8], o: usize, s: &[u8], at: usize) -> usize
    ensures { Put out.old out.new o result (opening (upper (rest E.encoding s.now at))) }
{
    let a = put(out, o, b';');
    let b = put_upper::<E>(out, a, s, at);
    put(out, b, b'=')
}

// The value whose characters stand from the cursor on, as the edition spells it, between quotes or not.
pub fn put_param_value<E: Encoding>(
    out: &mut [u8],
    o: usize,
    edition: Edition,
    quoted: bool,
    s: &[u8],
    at: usize,
) -> usize
    ensures { Put out.old out.new o result
        (write_param_value (encoded_value edition (record { quoted = quoted; chars = rest E.encoding s.now at }))) }
{
    if quoted {
        let a = put(out, o, b'"');
        let b = put_encoded::<E>(out, a, edition, s, at);
        return put(out, b, b'"');
    }
    put_encoded::<E>(out, o, edition, s, at)
}
