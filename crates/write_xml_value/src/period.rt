// PERIOD as an element. See specs/PutPeriod.antt.
ghost use Rattle.octets.specs.Reading.{or_nothing};
ghost use Rattle.calendar.specs.Calendar.{ical, PERIOD};
ghost use Rattle.sink.specs.Sink.{Put};
ghost use Rattle.source.specs.Source.{rest};
ghost use Rattle.times.specs.Period.{read_period};
ghost use Rattle.times.specs.PeriodWritten.{end_xml};
ghost use Rattle.values.specs.ReadValue.{read_value};
ghost use Rattle.xml.specs.Escape.{element_of};
ghost use Rattle.xcal.specs.WriteXml.{value_xml};
ghost use Rattle.write_xml_value.specs.PutPeriod.{start_element, end_element, period_xml};

use markup::element;
use source::Encoding;
use tags::{put_end_tag, put_start_tag};
use times::period::{put_period_end, put_period_start, read_period};

fn put_start_element<E: Encoding>(out: &mut [u8], o: usize, s: &[u8], at: usize) -> usize
    ensures { Put out.old out.new o result (start_element (rest E.encoding s.now at)) }
{
    let p = put_start_tag(out, o, &element::START);
    let q = put_period_start::<E>(out, p, s, at);
    put_end_tag(out, q, &element::START)
}

// What follows the start, as the element `name`.
fn put_end_named<E: Encoding>(out: &mut [u8], o: usize, name: &[u8], s: &[u8], at: usize) -> usize
    ensures { Put out.old out.new o result
        (element_of name.now (or_nothing end_xml (read_period (rest E.encoding s.now at)))) }
{
    let p = put_start_tag(out, o, name);
    let q = put_period_end::<E>(out, p, s, at);
    put_end_tag(out, q, name)
}

fn put_end_element<E: Encoding>(
    out: &mut [u8],
    o: usize,
    explicit: bool,
    s: &[u8],
    at: usize,
) -> usize
    ensures { Put out.old out.new o result (end_element explicit (rest E.encoding s.now at)) }
{
    if explicit {
        return put_end_named::<E>(out, o, &element::END, s, at);
    }
    put_end_named::<E>(out, o, &element::DURATION, s, at)
}

fn put_period_xml<E: Encoding>(
    out: &mut [u8],
    o: usize,
    explicit: bool,
    s: &[u8],
    at: usize,
) -> usize
    ensures { Put out.old out.new o result (period_xml explicit (rest E.encoding s.now at)) }
{
    let a = put_start_tag(out, o, &element::PERIOD);
    let b = put_start_element::<E>(out, a, s, at);
    let c = put_end_element::<E>(out, b, explicit, s, at);
    put_end_tag(out, c, &element::PERIOD)
}

// The period from the cursor `at` to the end; nothing where it is none.
pub fn put_period_element<E: Encoding>(out: &mut [u8], o: usize, s: &[u8], at: usize) -> usize
    ensures { Put out.old out.new o result
        (or_nothing value_xml (read_value ical PERIOD (rest E.encoding s.now at))) }
{
    match read_period::<E>(s, at) {
        Some(period) => put_period_xml::<E>(out, o, period.explicit, s, at),
        None => o,
    }
}
