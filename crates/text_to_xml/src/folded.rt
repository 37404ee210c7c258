// The same conversion with no work room: the text is read with its folds in place. See crate calls, specs/ToXmlFolded.antt.
ghost use Rattle.std.specs.Prelude.{◌≡◌};
ghost use Rattle.calls.specs.ToXmlFolded.{to_xml_folded_outcome, to_xml_folded_output};
ghost use Rattle.calls.specs.Answered.{outcome_of};

use crate::written;
use calls::Answer;
use read_text_whole::read_folded;
use source::Folded;

// Converts the iCalendar text `input`, read in the edition of the number `edition`, to canonical XML in `out`.
pub fn to_xml_folded(input: &[u8], out: &mut [u8], edition: u32) -> Answer
    ensures { (outcome_of result ≡ to_xml_folded_outcome input.now out.old edition)
        × (out.new ≡ to_xml_folded_output input.now out.old edition) }
{
    match read_folded(input, edition) {
        Ok(kept) => written::<Folded>(kept.edition, input, out),
        Err(fault) => Answer::from(fault),
    }
}
