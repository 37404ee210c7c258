// The document. See crate xcal, specs/WriteXml.antt; its fixed strings are those of crate markup. See specs/laws/Written.antt.
ghost use Rattle.std.specs.Prelude.{◌≡◌, true, [], ◌∷◌};
ghost use Rattle.octets.specs.Append.{◌⊕◌};
ghost use Rattle.sink.specs.Sink.{Put};
ghost use Rattle.source.specs.Source.{rest};
ghost use Rattle.folding.specs.Lines.{lines};
ghost use Rattle.text.specs.Tree.{calendar_of};
ghost use Rattle.xml.specs.Escape.{root_start};
ghost use Rattle.xcal.specs.WriteXml.{declaration, root_end, write_document};
ghost use Rattle.write_xml.specs.Fronts.{quoted_xml, attribute_xml};

use crate::components::put_components;
use edition::Edition;
use markup::{declaration, element, namespace};
use schema::component;
use sink::{put, put_all};
use source::Cuttable;
use tags::put_end_tag;

// A value between quotation marks.
fn put_quoted(out: &mut [u8], o: usize, value: &[u8]) -> usize
    ensures { Put out.old out.new o result (quoted_xml value.now) }
{
    let a = put_all(out, o, b"\"");
    let b = put_all(out, a, value);
    put_all(out, b, b"\"")
}

// A space and an attribute.
fn put_attribute(out: &mut [u8], o: usize, name: &[u8], value: &[u8]) -> usize
    ensures { Put out.old out.new o result (attribute_xml name.now value.now) }
{
    let a = put_all(out, o, b" ");
    let b = put_all(out, a, name);
    let c = put_all(out, b, b"=");
    put_quoted(out, c, value)
}

fn put_declaration(out: &mut [u8], o: usize) -> usize
    ensures { Put out.old out.new o result declaration }
{
    let a = put_all(out, o, &declaration::START);
    let b = put_attribute(out, a, &declaration::VERSION, &declaration::ONE);
    let c = put_attribute(out, b, &declaration::ENCODING, &declaration::UTF8);
    put_all(out, c, &declaration::END)
}

fn put_root_start(out: &mut [u8], o: usize) -> usize
    ensures { Put out.old out.new o result root_start }
{
    let a = put_all(out, o, b"<");
    let b = put_all(out, a, &element::ICALENDAR);
    let c = put_attribute(out, b, &namespace::XMLNS, &namespace::ICALENDAR);
    put_all(out, c, b">")
}

fn put_front(out: &mut [u8], o: usize) -> usize
    ensures { Put out.old out.new o result (declaration ⊕ (10 ∷ []) ⊕ root_start) }
{
    let a = put_declaration(out, o);
    let b = put(out, a, b'\n');
    put_root_start(out, b)
}

fn put_back(out: &mut [u8], o: usize) -> usize
    ensures { Put out.old out.new o result (root_end ⊕ (10 ∷ [])) }
{
    let a = put_end_tag(out, o, &element::ICALENDAR);
    put(out, a, b'\n')
}

// The canonical XML of the text, whatever it is.
pub fn put_document<E: Cuttable>(out: &mut [u8], o: usize, edition: Edition, s: &[u8]) -> usize
    ensures { Put out.old out.new o result
        (write_document (calendar_of edition (lines (rest E.encoding s.now 0)))) }
{
    let a = put_front(out, o);
    let from = E::settled(s, 0);
    let b = put_components::<E>(out, a, edition, s, from, component::LEVELS);
    put_back(out, b.to)
}
