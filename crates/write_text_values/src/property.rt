// The values of a property, by its number. See specs/laws/ValuesAt.antt.
ghost use Rattle.std.specs.Prelude.{◌≡◌, ◌≤◌, length};
ghost use Rattle.sink.specs.Sink.{Put};
ghost use Rattle.schema.specs.Numbers.{type_at, property_name};
ghost use Rattle.values.specs.WriteValue.{write_values, type_of_all};
ghost use Rattle.xcal.specs.ValueNodes.{read_value_nodes};
ghost use Rattle.xml.specs.NodesAt.{nodes_at};

use crate::own::{put_geo, put_status};
use crate::typed::{put_typed, type_of_typed};
use schema::{property, value_type};

// The values of the property of the number `p` whose content begins at `inside`, as iCalendar text.
pub fn put_values(out: &mut [u8], o: usize, p: usize, s: &[u8], inside: usize) -> usize
    requires { length s.now ≤ 65535 }
    ensures { Put out.old out.new o result
        (write_values (read_value_nodes (property_name p) (nodes_at s.now inside))) }
{
    if p == property::GEO {
        return put_geo(out, o, s, inside);
    }
    if p == property::REQUEST_STATUS {
        return put_status(out, o, s, inside);
    }
    put_typed(out, o, s, inside)
}

// The number of their type.
pub fn type_of_values(p: usize, s: &[u8], inside: usize) -> usize
    requires { length s.now ≤ 65535 }
    ensures { (type_at result ≡ type_of_all (read_value_nodes (property_name p) (nodes_at s.now inside))) × (result ≤ 14) }
{
    if p == property::GEO {
        return value_type::FLOAT;
    }
    if p == property::REQUEST_STATUS {
        return value_type::TEXT;
    }
    type_of_typed(s, inside)
}
