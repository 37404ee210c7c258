// One value of a parameter, by the parameter's number. See specs/Typing.antt.
ghost use Rattle.std.specs.Prelude.{◌≡◌};
ghost use Rattle.octets.specs.Reading.{is_read};
ghost use Rattle.source.specs.Source.{rest};
ghost use Rattle.schema.specs.Numbers.{parameter_at};
ghost use Rattle.text.specs.Parameters.{read_typed, read_word};
ghost use Rattle.read_text_parameters.specs.Typing.{read_by};

use schema::{
    is_quoted_parameter, parameter_has_words, parameter_type, read_word_of_parameter, value_type,
};
use source::Encoding;
use values::read_value;

// A value of the parameter's type. TEXT, and the value of an unrecognised parameter, is any characters.
fn is_typed<E: Encoding>(q: usize, s: &[u8], at: usize) -> bool
    ensures { result ≡ is_read (read_typed (parameter_at q).type (rest E.encoding s.now at)) }
{
    let t = parameter_type(q);
    if t == value_type::TEXT {
        return true;
    }
    if t == value_type::UNKNOWN {
        return true;
    }
    let Some(v) = read_value::<E>(false, t, s, at) else {
        return false;
    };
    true
}

// A word of the parameter's closed set, or a value of its type.
fn is_chosen<E: Encoding>(q: usize, s: &[u8], at: usize) -> bool
    ensures { result ≡ is_read (read_word (parameter_at q).words (parameter_at q).type (rest E.encoding s.now at)) }
{
    let closed = parameter_has_words(q);
    if closed {
        let Some(i) = read_word_of_parameter::<E>(q, false, s, at) else {
            return false;
        };
        return true;
    }
    is_typed::<E>(q, s, at)
}

// A value of the parameter of the number `q`.
pub fn is_value_at<E: Encoding>(q: usize, quoted: bool, s: &[u8], at: usize) -> bool
    ensures { result ≡ is_read (read_by (parameter_at q) (record { quoted = quoted; chars = rest E.encoding s.now at })) }
{
    if quoted {
        return is_chosen::<E>(q, s, at);
    }
    let must = is_quoted_parameter(q);
    if must {
        return false;
    }
    is_chosen::<E>(q, s, at)
}
