// The kinds of elements. See specs/Kinds.antt.
ghost use Rattle.std.specs.Prelude.{◌≡◌};
ghost use Rattle.read_json.specs.Kinds.{is_none, is_there, is_string, is_number, is_literal, is_array, is_object};

use crate::HeadKind;

// There is no element.
pub fn is_none(kind: HeadKind) -> bool
    ensures { result ≡ is_none kind }
{
    matches!(kind, HeadKind::Absent)
}

// There is one.
pub fn is_there(kind: HeadKind) -> bool
    ensures { result ≡ is_there kind }
{
    !is_none(kind)
}

pub fn is_string(kind: HeadKind) -> bool
    ensures { result ≡ is_string kind }
{
    matches!(kind, HeadKind::String)
}

pub fn is_number(kind: HeadKind) -> bool
    ensures { result ≡ is_number kind }
{
    matches!(kind, HeadKind::Number)
}

pub fn is_literal(kind: HeadKind) -> bool
    ensures { result ≡ is_literal kind }
{
    matches!(kind, HeadKind::Literal)
}

pub fn is_array(kind: HeadKind) -> bool
    ensures { result ≡ is_array kind }
{
    matches!(kind, HeadKind::Array)
}

pub fn is_object(kind: HeadKind) -> bool
    ensures { result ≡ is_object kind }
{
    matches!(kind, HeadKind::Object)
}
