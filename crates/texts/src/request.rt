// REQUEST-STATUS. See specs/RequestStatus.antt and specs/StatusParts.antt.
ghost use Rattle.std.specs.Prelude.{◌≡◌, true};
ghost use Rattle.octets.specs.Reading.{or_nothing};
ghost use Rattle.sink.specs.Sink.{Put};
ghost use Rattle.source.specs.Source.{rest};
ghost use Rattle.texts.specs.RequestStatus.{read_request_status};
ghost use Rattle.texts.specs.StatusParts.{soon_over, PartsFound, StatusEnds};
ghost use Rattle.texts.specs.StatusXml.{status_xml, data_behind, parts_xml};

use crate::StatusParts;
use crate::elements::put_text_element;
use crate::items::item_end;
use crate::text::read_text;
use markup::element;
use octets::unit::{END, SEMICOLON};
use source::{Cuttable, Encoding, unit};

// Nothing stands at the cursor, or a semicolon and the last part.
fn is_soon_over<E: Encoding>(s: &[u8], at: usize) -> bool
    ensures { result ≡ soon_over (rest E.encoding s.now at) }
{
    let separator = unit::<E>(s, at);
    if separator.u == END {
        return true;
    }
    let end = item_end::<E>(SEMICOLON, s, separator.next);
    unit::<E>(s, end).u == END
}

fn find_parts<E: Encoding>(s: &[u8], at: usize) -> Option<StatusParts>
    ensures { PartsFound E.encoding s.now at result }
{
    let code_end = item_end::<E>(SEMICOLON, s, at);
    let separator = unit::<E>(s, code_end);
    if separator.u == END {
        return None;
    }
    let description = separator.next;
    let description_end = item_end::<E>(SEMICOLON, s, description);
    is_soon_over::<E>(s, description_end).then_some(StatusParts {
        code_end,
        description,
        description_end,
    })
}

pub fn read_request_status<E: Encoding>(s: &[u8], at: usize) -> Option<StatusParts>
    ensures { StatusEnds E.encoding s.now at result }
{
    if read_text::<E>(SEMICOLON, s, at) {
        return find_parts::<E>(s, at);
    }
    None
}

// The element `data`, where a semicolon stands at the cursor.
fn put_data_xml<E: Encoding>(out: &mut [u8], at: usize, s: &[u8], from: usize) -> usize
    ensures { Put out.old out.new at result (data_behind (rest E.encoding s.now from)) }
{
    let n = unit::<E>(s, from);
    if n.u == END {
        return at;
    }
    put_text_element::<E>(out, at, &element::DATA, s, n.next, s.len())
}

fn put_parts_xml<E: Encoding>(
    out: &mut [u8],
    at: usize,
    s: &[u8],
    from: usize,
    parts: StatusParts,
) -> usize
    ensures { Put out.old out.new at result
        (parts_xml E.encoding s.now from parts.code_end parts.description parts.description_end) }
{
    let end = parts.description_end;
    let o = put_text_element::<E>(out, at, &element::CODE, s, from, parts.code_end);
    let e = put_text_element::<E>(out, o, &element::DESCRIPTION, s, parts.description, end);
    put_data_xml::<E>(out, e, s, end)
}

// A REQUEST-STATUS as its elements; nothing where it is none.
pub fn put_request_status_xml<E: Cuttable>(
    out: &mut [u8],
    at: usize,
    s: &[u8],
    from: usize,
) -> usize
    ensures { Put out.old out.new at result
        (or_nothing status_xml (read_request_status (rest E.encoding s.now from))) }
{
    let Some(parts) = read_request_status::<E>(s, from) else {
        return at;
    };
    put_parts_xml::<E>(out, at, s, from, parts)
}
