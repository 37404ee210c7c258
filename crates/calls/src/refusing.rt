// The answer that refuses, by its number. See specs/Answered.antt.
ghost use Rattle.std.specs.Prelude.{◌≡◌};
ghost use Rattle.calls.specs.Answered.{named, named_else, answer_at};

use crate::Answer;
use refusals::{ROOM, Refusal};

// The numbers that are told apart, from the enum.
const LINE: u8 = Refusal::Line as u8;

const NAME: u8 = Refusal::Name as u8;

const FRAME: u8 = Refusal::Frame as u8;

const PARAMETER: u8 = Refusal::Parameter as u8;

const VALUE: u8 = Refusal::Value as u8;

const COUNT: u8 = Refusal::Count as u8;

const WORK: u8 = Refusal::Work as u8;

const CHARACTER: u8 = Refusal::Character as u8;

const XML: u8 = Refusal::Xml as u8;

const JSON: u8 = Refusal::Json as u8;

const EDITION: u8 = Refusal::Edition as u8;

// The refusal of a number that is none of LINE to COUNT; of a number of none it is LENGTH.
fn refusal_else(n: u8) -> Refusal
    ensures { result ≡ named_else n }
{
    if n == WORK {
        return Refusal::Work;
    }
    if n == CHARACTER {
        return Refusal::Character;
    }
    if n == XML {
        return Refusal::Xml;
    }
    if n == JSON {
        return Refusal::Json;
    }
    if n == EDITION {
        return Refusal::Edition;
    }
    Refusal::Length
}

// The refusal of any number.
fn refusal_of(n: u8) -> Refusal
    ensures { result ≡ named n }
{
    if n == LINE {
        return Refusal::Line;
    }
    if n == NAME {
        return Refusal::Name;
    }
    if n == FRAME {
        return Refusal::Frame;
    }
    if n == PARAMETER {
        return Refusal::Parameter;
    }
    if n == VALUE {
        return Refusal::Value;
    }
    if n == COUNT {
        return Refusal::Count;
    }
    refusal_else(n)
}

// The answer of a refusal's number, with its place, for ROOM with the length that is needed.
pub fn refused(n: u8, p: usize) -> Answer
    ensures { result ≡ answer_at n p }
{
    if n == ROOM {
        return Answer::Needs(p);
    }
    let r = refusal_of(n);
    Answer::Refused(r, p)
}
