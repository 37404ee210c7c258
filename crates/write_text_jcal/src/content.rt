// The content line of a property's array: its name in capitals, VALUE, its parameters, a colon, its values. See specs/Content.antt.
ghost use Rattle.std.specs.Prelude.{◌≡◌, List, ◌∷◌, ℕ, ◌≤◌, length};
ghost use Rattle.octets.specs.Append.{◌⊕◌};
ghost use Rattle.names.specs.Table.{place_of};
ghost use Rattle.schema.specs.Components.{component_names};
ghost use Rattle.schema.specs.Properties.{property_names};
ghost use Rattle.schema.specs.Numbers.{component_name};
ghost use Rattle.schema.specs.Coded.{row_at};
ghost use Rattle.sink.specs.Sink.{Put};
ghost use Rattle.json_text.specs.Tree.{element_list};
ghost use Rattle.values.specs.WriteValue.{write_values};
ghost use Rattle.read_json.specs.TreeAt.{elements_at};
ghost use Rattle.write_text_jcal_values.specs.Elements.{list_at, without};
ghost use Rattle.write_text_jcal_values.specs.Property.{ReadAs, stated_as};
ghost use Rattle.write_text_jcal.specs.Content.{parameters_text, line_text};

use crate::context::context_at;
use edition::Edition;
use names::put_upper;
use read_jcal_parameters::put_parameters;
use read_jcal_value::values_read;
use schema::Context;
use sink::put_all;
use source::JsonCharacters;
use write_text_jcal_values::{object_at, put_values, skip, string_at, type_of_values};
use write_text_pieces::put_value_parameter;

// VALUE and the parameters of the property whose array's content begins at `inside`; its values stand from `from` on.
fn put_all_parameters(
    out: &mut [u8],
    o: usize,
    edition: Edition,
    context: Context,
    read: bool,
    s: &[u8],
    inside: usize,
    from: usize,
) -> usize
    requires { context.value_type ≤ 14 }
    ensures { (c w : List ℕ) →
        ReadAs context c w (list_at s.now from) read →
        Put out.old out.new o result
        (parameters_text edition w (stated_as context c w (list_at s.now from))
        (elements_at s.now inside)) }
{
    let t = type_of_values(context, read, s, from);
    let at = skip(s, inside, 1);
    let q = object_at(s, at);
    let a = put_value_parameter(out, o, context.row.default, t);
    put_parameters(out, a, edition, s, q)
}

// A colon and the values from `from` on.
fn put_all_values(
    out: &mut [u8],
    o: usize,
    context: Context,
    read: bool,
    s: &[u8],
    from: usize,
) -> usize
    requires { (length s.now ≤ 65535) × (context.value_type ≤ 14) }
    ensures { (c w : List ℕ) →
        ReadAs context c w (list_at s.now from) read →
        Put out.old out.new o result
        (58 ∷ write_values (stated_as context c w (list_at s.now from))) }
{
    let a = put_all(out, o, b":");
    put_values(out, a, context, read, s, from)
}

// What stands behind the name.
fn put_line_end(
    out: &mut [u8],
    o: usize,
    edition: Edition,
    context: Context,
    s: &[u8],
    inside: usize,
) -> usize
    requires { (length s.now ≤ 65535) × (context.value_type ≤ 14) }
    ensures { (c w : List ℕ) →
        context.component ≡ place_of c component_names →
        context.row ≡ row_at (place_of w property_names) →
        Put out.old out.new o result
        (parameters_text edition w
        (stated_as context c w (element_list (without 3 (elements_at s.now inside))))
        (elements_at s.now inside)
        ⊕ (58
        ∷ write_values (stated_as context c w (element_list (without 3 (elements_at s.now inside)))))) }
{
    let from = skip(s, inside, 3);
    let read = values_read(context, s, from);
    let a = put_all_parameters(out, o, edition, context, read, s, inside, from);
    put_all_values(out, a, context, read, s, from)
}

// The content line of the property whose array's content begins at `inside`, in the component of the number `k`.
pub fn put_content_line(
    out: &mut [u8],
    o: usize,
    edition: Edition,
    k: usize,
    s: &[u8],
    inside: usize,
) -> usize
    requires { (length s.now ≤ 65535) × (k ≤ 9) }
    ensures { Put out.old out.new o result
        (line_text edition (component_name k) (elements_at s.now inside)) }
{
    let c = string_at(s, inside);
    let a = put_upper::<JsonCharacters>(out, o, s, c);
    let context = context_at(k, s, inside);
    put_line_end(out, a, edition, context, s, inside)
}
