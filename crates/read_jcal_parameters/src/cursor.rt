// The cursor of a string.
ghost use Rattle.std.specs.Prelude.{◌≡◌, ◌<◌, length};
ghost use Rattle.source.specs.Source.{rest};
ghost use Rattle.read_json.specs.TreeAt.{string_at};

// The cursor of the characters of the string whose quotation mark stands at `place`.
pub fn cursor_of(s: &[u8], place: usize) -> usize
    requires { place < length s.now }
    ensures { rest 3 s.now result ≡ string_at s.now place }
{
    2 * (place + 1)
}
