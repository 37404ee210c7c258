// iCalendar text to canonical jCal. See crate calls_jcal, specs/ToJcal.antt.
#![tactic(auto)]

ghost use Rattle.std.specs.Prelude.{◌≡◌, ◌+◌, ◌*◌, ◌≤◌, length};
ghost use Rattle.calendar.specs.Refusal.{fine, answer};
ghost use Rattle.folding.specs.Lines.{lines};
ghost use Rattle.text.specs.Tree.{calendar_of};
ghost use Rattle.jcal.specs.WriteJcal.{write_jcal};
ghost use Rattle.calls.specs.Conversion.{converted};
ghost use Rattle.calls.specs.Answered.{outcome_of, Done};
ghost use Rattle.calls_jcal.specs.ToJcal.{to_jcal_outcome, to_jcal_output, to_jcal_work};

use calls::Answer;
use edition::Edition;
use read_text_whole::read_whole;
use source::Plain;
use write_jcal::put_jcal;

// The jCal of an unfolded text, where there is certainly room for it.
fn written_at_once(edition: Edition, kept: &[u8], out: &mut [u8]) -> Answer
    requires { (length kept.now ≤ 65535) × (19 * length kept.now + 2 ≤ length out.old) }
    ensures { Done (converted write_jcal (answer fine (calendar_of edition (lines kept.now)))) out.old
        out.new result }
{
    Answer::Written(put_jcal::<Plain>(out, 0, edition, kept))
}

// The jCal of an unfolded text: first how long it is, then, if there is room, all of it.
fn measured(edition: Edition, kept: &[u8], out: &mut [u8]) -> Answer
    requires { length kept.now ≤ 65535 }
    ensures { Done (converted write_jcal (answer fine (calendar_of edition (lines kept.now)))) out.old
        out.new result }
{
    let need = put_jcal::<Plain>(&mut out[..0], 0, edition, kept);
    if need <= out.len() {
        put_jcal::<Plain>(out, 0, edition, kept);
        return Answer::Written(need);
    }
    Answer::Needs(need)
}

// The jCal of an unfolded text: it has no more than 19 bytes for each byte of the text, and 2.
fn written(edition: Edition, kept: &[u8], out: &mut [u8]) -> Answer
    requires { length kept.now ≤ 65535 }
    ensures { Done (converted write_jcal (answer fine (calendar_of edition (lines kept.now)))) out.old
        out.new result }
{
    let most = 19 * kept.len() + 2;
    if most <= out.len() {
        return written_at_once(edition, kept, out);
    }
    measured(edition, kept, out)
}

// Converts the iCalendar text `input`, read in the edition of the number `edition`, to canonical jCal in `out`. `work` is as long as `input` or longer: the text is unfolded there.
pub fn to_jcal(input: &[u8], work: &mut [u8], out: &mut [u8], edition: u32) -> Answer
    ensures { (outcome_of result ≡ to_jcal_outcome input.now work.old out.old edition)
        × (out.new ≡ to_jcal_output input.now work.old out.old edition)
        × (work.new ≡ to_jcal_work input.now work.old edition) }
{
    match read_whole(input, work, edition) {
        Ok(kept) => written(kept.edition, &work[..kept.size], out),
        Err(fault) => Answer::from(fault),
    }
}
