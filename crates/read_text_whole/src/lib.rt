// A text as it is lent: unfolded into the work room and checked there, or checked with its folds in place (folded.rt). What the calls from text share. See specs/Whole.antt.
#![tactic(auto)]

mod folded;

ghost use Rattle.std.specs.Prelude.{◌≡◌, true, ◌≤◌, length};
ghost use Rattle.source.specs.Source.{rest};
ghost use Rattle.folding.specs.Lines.{lines};
ghost use Rattle.read_text_line.specs.LineEnd.{index};
ghost use Rattle.text.specs.ReadText.{lines_verdict, kept_verdict};
ghost use Rattle.calls.specs.ToXml.{to_xml_work};
ghost use Rattle.read_text_whole.specs.Whole.{Judges, Reads};

use characters::{count_from, first_bad};
use edition::{Edition, edition_of};
pub use folded::read_folded;
use folding::unfolding::{place_of, unfold};
use read_text::check;
use refusals::{Fault, Refusal};
use source::{Cut, Cuttable, Encoding, Plain};

// A text that is fine: its edition, and how many bytes are to be read, of the work room or of the text with its folds.
#[derive(Clone, Copy, Debug, PartialEq, Eq)]
pub struct Kept {
    pub edition: Edition,
    pub size: usize,
}

// How many bytes stand before a cursor.
fn index_at<E: Encoding>(s: &[u8], p: usize) -> usize
    requires { p ≤ length s.now }
    ensures { result ≡ index E.encoding s.now p }
{
    if let Some(Cut::Plain) = E::cut() {
        return p;
    }
    let all = count_from::<E>(s, 0);
    let left = count_from::<E>(s, p);
    if left <= all { all - left } else { 0 }
}

// The first faulty line of the text `s`, at its place in the text as lent.
fn lines_judged<E: Cuttable>(edition: Edition, input: &[u8], s: &[u8]) -> Result<Kept, Fault>
    ensures { Judges edition input.now (length s.now)
        (lines_verdict edition (length (rest E.encoding s.now 0)) (lines (rest E.encoding s.now 0))) result }
{
    match check::<E>(edition, s) {
        Ok(()) => Ok(Kept {
            edition,
            size: s.len(),
        }),
        Err(fault) => {
            let i = index_at::<E>(s, fault.place);
            let place = place_of(input, i);
            Err(fault.refusal.at(place))
        }
    }
}

// The first byte of the text `s` that begins no character; or its first faulty line. Of the text as lent, `s` has the kept bytes: as they stand, or with the folds between them.
fn judged<E: Cuttable>(edition: Edition, input: &[u8], s: &[u8]) -> Result<Kept, Fault>
    ensures { Judges edition input.now (length s.now)
        (kept_verdict edition (rest E.encoding s.now 0)) result }
{
    match first_bad::<E>(s) {
        Some(p) => Err(Refusal::Character.at(place_of(input, p))),
        None => lines_judged::<E>(edition, input, s),
    }
}

// The text `input`, read in the edition of the number `edition`. `work` is as long as `input` or longer: the text is unfolded there.
pub fn read_whole(input: &[u8], work: &mut [u8], edition: u32) -> Result<Kept, Fault>
    ensures { Reads input.now work.old work.new edition result
        × (work.new ≡ to_xml_work input.now work.old edition) }
{
    if 65535 < input.len() {
        return Err(Refusal::Length.at(0));
    }
    if work.len() < input.len() {
        return Err(Refusal::Work.at(0));
    }
    let Some(e) = edition_of(edition) else {
        return Err(Refusal::Edition.at(0));
    };
    let n = unfold(input, work);
    judged::<Plain>(e, input, &work[..n])
}
