// TEXT of iCalendar text as elements of XML. See specs/Elements.antt.
ghost use Rattle.std.specs.Prelude.{◌≡◌, true, take};
ghost use Rattle.octets.specs.Ascii.{ascii};
ghost use Rattle.octets.specs.Reading.{is_read, or_nothing};
ghost use Rattle.sink.specs.Sink.{Put};
ghost use Rattle.source.specs.Source.{rest};
ghost use Rattle.xml.specs.Escape.{escaped, element_of};
ghost use Rattle.texts.specs.Text.{read_text};
ghost use Rattle.texts.specs.TextList.{read_texts};
ghost use Rattle.texts.specs.Elements.{texts_xml};

use crate::items::item_end;
use crate::text::read_text;
use crate::written::put_text_xml;
use markup::element;
use octets::smaller;
use octets::unit::{COMMA, END};
use source::{Cuttable, Encoding, unit};
use tags::{put_end_tag, put_start_tag};

// The TEXT from the cursor `from` to the cursor `end`, as the element `name`.
pub fn put_text_element<E: Encoding>(
    out: &mut [u8],
    at: usize,
    name: &[u8],
    s: &[u8],
    from: usize,
    end: usize,
) -> usize
    ensures { Put out.old out.new at result
        (element_of name.now (or_nothing escaped (read_text (rest E.encoding (take end s.now) from)))) }
{
    let e = smaller(end, s.len());
    let o = put_start_tag(out, at, name);
    let p = put_text_xml::<E>(out, o, &s[..e], from);
    put_end_tag(out, p, name)
}

fn put_item_xml<E: Encoding>(out: &mut [u8], at: usize, s: &[u8], from: usize, end: usize) -> usize
    ensures { Put out.old out.new at result
        (element_of (ascii "text") (or_nothing escaped (read_text (rest E.encoding (take end s.now) from)))) }
{
    put_text_element::<E>(out, at, &element::TEXT, s, from, end)
}

fn put_items_xml<E: Cuttable>(out: &mut [u8], at: usize, s: &[u8], from: usize) -> usize
    requires { is_read (read_texts (rest E.encoding s.now from)) ≡ true }
    ensures { Put out.old out.new at result
        (or_nothing texts_xml (read_texts (rest E.encoding s.now from))) }
{
    let mut o = at;
    let mut c = from;
    loop {
        let e = item_end::<E>(COMMA, s, c);
        o = put_item_xml::<E>(out, o, s, c, e);
        let n = unit::<E>(s, e);
        if n.u == END {
            return o;
        }
        c = n.next;
    }
}

// A list of TEXT: an element `text` for each, also for an empty one. Nothing where it is none.
pub fn put_texts_xml<E: Cuttable>(out: &mut [u8], at: usize, s: &[u8], from: usize) -> usize
    ensures { Put out.old out.new at result
        (or_nothing texts_xml (read_texts (rest E.encoding s.now from))) }
{
    if read_text::<E>(COMMA, s, from) {
        return put_items_xml::<E>(out, at, s, from);
    }
    at
}
