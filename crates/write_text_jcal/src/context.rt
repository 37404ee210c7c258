// What a property's array says of its values: in which component they stand, of which property and type. See specs/Context.antt.
ghost use Rattle.std.specs.Prelude.{◌≡◌, List, ℕ, ◌≤◌, length};
ghost use Rattle.names.specs.Table.{place_of};
ghost use Rattle.schema.specs.Components.{component_names};
ghost use Rattle.schema.specs.Properties.{property_names};
ghost use Rattle.schema.specs.Numbers.{type_at};
ghost use Rattle.schema.specs.Coded.{row_at};
ghost use Rattle.jcal.specs.Property.{value_type_of};
ghost use Rattle.write_text_jcal_values.specs.Elements.{list_at};
ghost use Rattle.write_text_jcal.specs.Context.{ContextAt};

use markup::table;
use names::find_word;
use schema::{Context, row_of, value_type};
use source::JsonCharacters;
use write_text_jcal_values::{skip, string_at};

// The number of the type that the array names whose content begins at `inside`; TEXT where it names none.
fn type_at(s: &[u8], inside: usize) -> usize
    requires { length s.now ≤ 65535 }
    ensures { (type_at result ≡ value_type_of (list_at s.now inside)) × (result ≤ 14) }
{
    let at = skip(s, inside, 2);
    let c = string_at(s, at);
    let t = find_word::<JsonCharacters>(true, s, c, &table::TYPES);
    if t <= value_type::UNKNOWN {
        return t;
    }
    value_type::TEXT
}

// The context of the values of the property whose array's content begins at `inside`, in the component of the number `k`.
pub fn context_at(k: usize, s: &[u8], inside: usize) -> Context
    requires { length s.now ≤ 65535 }
    ensures { ContextAt k s.now inside result }
{
    let c = string_at(s, inside);
    let row = row_of::<JsonCharacters>(s, c);
    let t = type_at(s, inside);
    Context {
        component: k,
        row,
        value_type: t,
    }
}
