// A separator between pieces. See specs/laws/Joining.antt.
ghost use Rattle.std.specs.Prelude.{[], ◌∷◌};
ghost use Rattle.octets.specs.Pick.{pick};
ghost use Rattle.sink.specs.Sink.{Put};

use sink::put;

// The byte `b`, where something stands before.
pub fn put_between(out: &mut [u8], o: usize, started: bool, b: u8) -> usize
    ensures { Put out.old out.new o result (pick started (b ∷ []) []) }
{
    if started {
        return put(out, o, b);
    }
    o
}
