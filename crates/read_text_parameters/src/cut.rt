// Names and values cut out of a line: from the cursor `from` to the cursor `to`.
ghost use Rattle.std.specs.Prelude.{◌≡◌, take};
ghost use Rattle.octets.specs.Ascii.{ascii};
ghost use Rattle.octets.specs.Class.{upper};
ghost use Rattle.octets.specs.Words.{same};
ghost use Rattle.source.specs.Source.{rest};
ghost use Rattle.names.specs.Table.{place_of};
ghost use Rattle.schema.specs.Parameters.{parameter_names};

use names::is_word_any_case;
use octets::smaller;
use schema::parameter_number;
use source::Encoding;

// The word is `w`, which has no small letters, in any case.
pub fn is_named<E: Encoding>(s: &[u8], from: usize, to: usize, w: &[u8]) -> bool
    ensures { result ≡ same (upper (rest E.encoding (take to s.now) from)) w.now }
{
    let e = smaller(to, s.len());
    is_word_any_case::<E>(&s[..e], from, w)
}

// The name is VALUE.
pub fn is_value_name<E: Encoding>(s: &[u8], from: usize, to: usize) -> bool
    ensures { result ≡ same (upper (rest E.encoding (take to s.now) from)) (ascii "VALUE") }
{
    is_named::<E>(s, from, to, b"VALUE")
}

// The number of a parameter's name.
pub fn number_of<E: Encoding>(s: &[u8], from: usize, to: usize) -> usize
    ensures { result ≡ place_of (upper (rest E.encoding (take to s.now) from)) parameter_names }
{
    let e = smaller(to, s.len());
    parameter_number::<E>(&s[..e], from)
}
