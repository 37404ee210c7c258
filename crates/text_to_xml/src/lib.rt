// iCalendar text to canonical XML: unfolded into a work room first, or read with its folds in place (folded.rt). See crate calls, specs/ToXml.antt.
#![tactic(auto)]

mod folded;

ghost use Rattle.std.specs.Prelude.{◌≡◌, true, ◌+◌, ◌*◌, ◌≤◌, length};
ghost use Rattle.calendar.specs.Refusal.{fine, answer};
ghost use Rattle.source.specs.Source.{rest};
ghost use Rattle.folding.specs.Lines.{lines};
ghost use Rattle.text.specs.Tree.{calendar_of};
ghost use Rattle.xcal.specs.WriteXml.{write_document};
ghost use Rattle.calls.specs.Conversion.{converted};
ghost use Rattle.calls.specs.ToXml.{to_xml_outcome, to_xml_output, to_xml_work};
ghost use Rattle.calls.specs.Answered.{outcome_of, Done};

use calls::Answer;
use edition::Edition;
pub use folded::to_xml_folded;
use read_text_whole::read_whole;
use source::{Cuttable, Plain};
use write_xml::put_document;

// The XML of a text, where there is certainly room for it.
fn written_at_once<E: Cuttable>(edition: Edition, s: &[u8], out: &mut [u8]) -> Answer
    requires { (length s.now ≤ 65535) × (19 * length s.now + 109 ≤ length out.old) }
    ensures { Done (converted write_document (answer fine (calendar_of edition (lines (rest E.encoding s.now 0)))))
        out.old out.new result }
{
    Answer::Written(put_document::<E>(out, 0, edition, s))
}

// The XML of a text: first how long it is, then, if there is room, all of it.
fn measured<E: Cuttable>(edition: Edition, s: &[u8], out: &mut [u8]) -> Answer
    requires { length s.now ≤ 65535 }
    ensures { Done (converted write_document (answer fine (calendar_of edition (lines (rest E.encoding s.now 0)))))
        out.old out.new result }
{
    let need = put_document::<E>(&mut out[..0], 0, edition, s);
    if need <= out.len() {
        put_document::<E>(out, 0, edition, s);
        return Answer::Written(need);
    }
    Answer::Needs(need)
}

// The XML of a text: it has no more than 19 bytes for each byte of the text, and 109.
fn written<E: Cuttable>(edition: Edition, s: &[u8], out: &mut [u8]) -> Answer
    requires { length s.now ≤ 65535 }
    ensures { Done (converted write_document (answer fine (calendar_of edition (lines (rest E.encoding s.now 0)))))
        out.old out.new result }
{
    let most = 19 * s.len() + 109;
    if most <= out.len() {
        return written_at_once::<E>(edition, s, out);
    }
    measured::<E>(edition, s, out)
}

// Converts the iCalendar text `input`, read in the edition of the number `edition`, to canonical XML in `out`. `work` is as long as `input` or longer: the text is unfolded there.
pub fn to_xml(input: &[u8], work: &mut [u8], out: &mut [u8], edition: u32) -> Answer
    ensures { (outcome_of result ≡ to_xml_outcome input.now work.old out.old edition)
        × (out.new ≡ to_xml_output input.now work.old out.old edition)
        × (work.new ≡ to_xml_work input.now work.old edition) }
{
    match read_whole(input, work, edition) {
        Ok(kept) => written::<Plain>(kept.edition, &work[..kept.size], out),
        Err(fault) => Answer::from(fault),
    }
}
