// The content line of a property's element: its name in capitals, VALUE, its parameters, a colon, its values. See specs/Content.antt.
ghost use Rattle.std.specs.Prelude.{◌≡◌, List, ◌∷◌, ℕ, ◌≤◌, length};
ghost use Rattle.sink.specs.Sink.{Put};
ghost use Rattle.names.specs.Table.{place_of};
ghost use Rattle.schema.specs.Properties.{property_names};
ghost use Rattle.schema.specs.Coded.{row_at};
ghost use Rattle.values.specs.WriteValue.{write_values};
ghost use Rattle.xcal.specs.ValueNodes.{read_value_nodes};
ghost use Rattle.xml.specs.NodesAt.{nodes_at};
ghost use Rattle.read_xml_nodes.specs.Elements.{name_at};
ghost use Rattle.write_text.specs.Content.{parameters_text, line_text};

use crate::children::parameters_inside;
use edition::Edition;
use names::put_upper;
use read_xml_nodes::Element;
use read_xml_parameters::put_parameters;
use schema::{Row, row_of};
use sink::put_all;
use source::Plain;
use write_text_pieces::put_value_parameter;
use write_text_values::{put_values, type_of_values};

// VALUE and the parameters of the property of the row whose content begins at `inside`.
fn put_all_parameters(
    out: &mut [u8],
    o: usize,
    edition: Edition,
    row: Row,
    s: &[u8],
    inside: usize,
) -> usize
    requires { (length s.now ≤ 65535) × (inside ≤ length s.now) }
    ensures { (w : List ℕ) →
        row ≡ row_at (place_of w property_names) →
        Put out.old out.new o result (parameters_text edition w (nodes_at s.now inside)) }
{
    let t = type_of_values(row.number, s, inside);
    let q = parameters_inside(row.number, s, inside);
    let a = put_value_parameter(out, o, row.default, t);
    put_parameters(out, a, edition, s, q)
}

// A colon and the values of the property of the number `p`.
fn put_all_values(out: &mut [u8], o: usize, p: usize, s: &[u8], inside: usize) -> usize
    requires { (length s.now ≤ 65535) × (inside ≤ length s.now) }
    ensures { (w : List ℕ) →
        p ≡ place_of w property_names →
        Put out.old out.new o result
        (58 ∷ write_values (read_value_nodes w (nodes_at s.now inside))) }
{
    let a = put_all(out, o, b":");
    put_values(out, a, p, s, inside)
}

// The content line of the property whose element is `e`.
pub fn put_content_line(out: &mut [u8], o: usize, edition: Edition, s: &[u8], e: Element) -> usize
    requires { (length s.now ≤ 65535) × (e.name_end ≤ length s.now) × (e.inside ≤ length s.now) }
    ensures { Put out.old out.new o result
        (line_text edition (name_at s.now e) (nodes_at s.now e.inside)) }
{
    let row = row_of::<Plain>(&s[..e.name_end], e.name);
    let a = put_upper::<Plain>(out, o, &s[..e.name_end], e.name);
    let b = put_all_parameters(out, a, edition, row, s, e.inside);
    put_all_values(out, b, row.number, s, e.inside)
}
