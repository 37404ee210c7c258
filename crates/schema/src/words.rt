// Closed sets of words: of a property in a component, and of a parameter. A word is compared in any case in text, as it stands in XML.
ghost use Rattle.std.specs.Prelude.{◌≡◌};
ghost use Rattle.octets.specs.Reading.{is_read};
ghost use Rattle.source.specs.Source.{rest};
ghost use Rattle.names.specs.Case.{cased, case_of};
ghost use Rattle.schema.specs.Completing.{action_at, action_named};
ghost use Rattle.schema.specs.Sets.{set_of, status_set, property_set, set_at, words_at, parameter_set, parameter_words_at, word_in};

use crate::{Action, component, parameter, property, set};
use names::find_word;
use source::Encoding;

// The number of the set of STATUS in a component.
fn status_set(k: usize) -> usize
    ensures { result ≡ status_set k }
{
    if k == component::VEVENT {
        return set::EVENT_STATUS;
    }
    if k == component::VTODO {
        return set::TODO_STATUS;
    }
    if k == component::VJOURNAL {
        return set::JOURNAL_STATUS;
    }
    set::STATUS
}

// The number of the set of a property other than STATUS, if it has one.
fn property_set(p: usize) -> Option<usize>
    ensures { result ≡ property_set p }
{
    if p == property::CALSCALE {
        return Some(set::CALSCALE);
    }
    if p == property::VERSION {
        return Some(set::VERSION);
    }
    if p == property::CLASS {
        return Some(set::CLASS);
    }
    if p == property::TRANSP {
        return Some(set::TRANSP);
    }
    if p == property::ACTION {
        return Some(set::ACTION);
    }
    None
}

// The number of the set of a property in a component, if it has one.
fn set_at(k: usize, p: usize) -> Option<usize>
    ensures { result ≡ set_at k p }
{
    if p == property::STATUS {
        return Some(status_set(k));
    }
    property_set(p)
}

// The words of the sets, one set after the other.
const WORDS: [u8; 517] = *b"\
    GREGORIAN\n\
    2.0\n\
    PUBLIC\nPRIVATE\nCONFIDENTIAL\n\
    OPAQUE\nTRANSPARENT\n\
    AUDIO\nDISPLAY\nEMAIL\n\
    TENTATIVE\nCONFIRMED\nCANCELLED\n\
    NEEDS-ACTION\nCOMPLETED\nIN-PROCESS\nCANCELLED\n\
    DRAFT\nFINAL\nCANCELLED\n\
    INDIVIDUAL\nGROUP\nRESOURCE\nROOM\nUNKNOWN\n\
    8BIT\nBASE64\n\
    FREE\nBUSY\nBUSY-UNAVAILABLE\nBUSY-TENTATIVE\n\
    NEEDS-ACTION\nACCEPTED\nDECLINED\nTENTATIVE\nDELEGATED\nCOMPLETED\nIN-PROCESS\n\
    THISANDFUTURE\n\
    START\nEND\n\
    PARENT\nCHILD\nSIBLING\n\
    CHAIR\nREQ-PARTICIPANT\nOPT-PARTICIPANT\nNON-PARTICIPANT\n\
    TENTATIVE\nCONFIRMED\nCANCELLED\nNEEDS-ACTION\nCOMPLETED\nIN-PROCESS\nDRAFT\nFINAL\n";

// Where each set begins, and where the last one ends.
const STARTS: [usize; 18] = [
    0, 10, 14, 42, 61, 81, 111, 155, 177, 216, 228, 270, 342, 356, 366, 387, 441, 517,
];

// How many words each set has.
const SIZES: [usize; 17] = [1, 1, 3, 2, 3, 3, 4, 3, 5, 2, 4, 7, 1, 2, 3, 4, 8];

// The place of the word in the set of this number.
fn read_in_set<E: Encoding>(number: Option<usize>, xcal: bool, s: &[u8], at: usize) -> Option<usize>
    ensures { result ≡ word_in (set_of number) (cased (case_of xcal) (rest E.encoding s.now at)) }
{
    let n = number?;
    if n >= set::COUNT {
        return None;
    }
    let words = WORDS;
    let from = STARTS[n];
    let to = STARTS[n + 1];
    let i = find_word::<E>(xcal, s, at, &words[from..to]);
    if i < SIZES[n] {
        return Some(i);
    }
    None
}

// Whether a property has a closed set in a component.
pub fn has_words(k: usize, p: usize) -> bool
    ensures { result ≡ is_read (words_at k p) }
{
    set_at(k, p).is_some()
}

// The place of the word in the closed set of a property in a component.
pub fn read_word_of<E: Encoding>(
    k: usize,
    p: usize,
    xcal: bool,
    s: &[u8],
    at: usize,
) -> Option<usize>
    ensures { result ≡ word_in (words_at k p) (cased (case_of xcal) (rest E.encoding s.now at)) }
{
    read_in_set::<E>(set_at(k, p), xcal, s, at)
}

// The number of the set of each parameter.
const PARAMETER_SETS: [Option<usize>; 19] = [
    None, // ALTREP
    None, // CN
    Some(set::CUTYPE), // CUTYPE
    None, // DELEGATED-FROM
    None, // DELEGATED-TO
    None, // DIR
    Some(set::ENCODING), // ENCODING
    None, // FMTTYPE
    Some(set::FBTYPE), // FBTYPE
    None, // LANGUAGE
    None, // MEMBER
    Some(set::PARTSTAT), // PARTSTAT
    Some(set::RANGE), // RANGE
    Some(set::RELATED), // RELATED
    Some(set::RELTYPE), // RELTYPE
    Some(set::ROLE), // ROLE
    None, // RSVP
    None, // SENT-BY
    None, // TZID
];

fn parameter_set(q: usize) -> Option<usize>
    ensures { result ≡ parameter_set q }
{
    if q < parameter::KNOWN {
        return PARAMETER_SETS[q];
    }
    None
}

// Whether a parameter has a closed set.
pub fn parameter_has_words(q: usize) -> bool
    ensures { result ≡ is_read (parameter_words_at q) }
{
    parameter_set(q).is_some()
}

// The place of the word in the closed set of a parameter.
pub fn read_word_of_parameter<E: Encoding>(
    q: usize,
    xcal: bool,
    s: &[u8],
    at: usize,
) -> Option<usize>
    ensures { result ≡ word_in (parameter_words_at q) (cased (case_of xcal) (rest E.encoding s.now at)) }
{
    read_in_set::<E>(parameter_set(q), xcal, s, at)
}

// The action whose word has this place in the set of ACTION.
fn action_at(place: usize) -> Action
    ensures { result ≡ action_at place }
{
    match place {
        0 => Action::Audio,
        1 => Action::Display,
        _ => Action::Email,
    }
}

// The action that a word names: AUDIO, DISPLAY or EMAIL.
pub fn action_named<E: Encoding>(xcal: bool, s: &[u8], at: usize) -> Option<Action>
    ensures { result ≡ action_named (cased (case_of xcal) (rest E.encoding s.now at)) }
{
    let place = read_in_set::<E>(Some(set::ACTION), xcal, s, at)?;
    Some(action_at(place))
}
