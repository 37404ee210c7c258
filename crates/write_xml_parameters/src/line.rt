// The parameters of a line as an element.
ghost use Rattle.std.specs.Prelude.{◌≡◌, true, []};
ghost use Rattle.octets.specs.Ascii.{ascii};
ghost use Rattle.octets.specs.Words.{is_empty};
ghost use Rattle.octets.specs.Reading.{read_or};
ghost use Rattle.sink.specs.Sink.{Put};
ghost use Rattle.read_text_line.specs.Cursor.{params_at};
ghost use Rattle.read_text_line.specs.Decoded.{params_in};
ghost use Rattle.xml.specs.Escape.{element_of};
ghost use Rattle.text.specs.Parameters.{own_parameters, read_parameters};
ghost use Rattle.xcal.specs.WriteXml.{parameters_element};
ghost use Rattle.write_xml_parameters.specs.Shown.{parameters_shown};

use crate::parameter::put_cut_own;
use edition::Edition;
use markup::element;
use read_text_line::next_param;
use read_text_parameters::{are_read, is_value_name};
use source::Cuttable;
use tags::{put_end_tag, put_start_tag};

// There is no parameter besides VALUE.
fn is_bare<E: Cuttable>(s: &[u8], at: usize) -> bool
    ensures { result ≡ is_empty (own_parameters (params_at E.encoding s.now at)) }
{
    let mut c = at;
    while let Ok(Some(p)) = next_param::<E>(s, c) {
        if !is_value_name::<E>(s, p.name, p.end) {
            return false;
        }
        c = p.next;
    }
    true
}

// The elements of all parameters but VALUE.
fn put_each<E: Cuttable>(out: &mut [u8], o: usize, edition: Edition, s: &[u8], at: usize) -> usize
    ensures { Put out.old out.new o result (parameters_shown (params_in edition E.encoding s.now at)) }
{
    let mut q = o;
    let mut c = at;
    while let Ok(Some(p)) = next_param::<E>(s, c) {
        q = put_cut_own::<E>(out, q, edition, s, p.name, p.end, p.first);
        c = p.next;
    }
    q
}

fn put_element<E: Cuttable>(
    out: &mut [u8],
    o: usize,
    edition: Edition,
    s: &[u8],
    at: usize,
) -> usize
    ensures { Put out.old out.new o result
        (element_of (ascii "parameters") (parameters_shown (params_in edition E.encoding s.now at))) }
{
    let a = put_start_tag(out, o, &element::PARAMETERS);
    let b = put_each::<E>(out, a, edition, s, at);
    put_end_tag(out, b, &element::PARAMETERS)
}

// The element `parameters` of the line whose name ends at the cursor `e`: nothing where there is no parameter besides VALUE, or where one is not readable.
pub fn put_parameters<E: Cuttable>(
    out: &mut [u8],
    o: usize,
    edition: Edition,
    s: &[u8],
    e: usize,
) -> usize
    ensures { Put out.old out.new o result
        (parameters_element (read_or [] (read_parameters (params_in edition E.encoding s.now e)))) }
{
    if !are_read::<E>(edition, s, e) {
        return o;
    }
    if is_bare::<E>(s, e) {
        return o;
    }
    put_element::<E>(out, o, edition, s, e)
}
