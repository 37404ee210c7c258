// Words collected by their cuts. See specs/Keeping.antt.
ghost use Rattle.distinct.specs.Keeping.{KeepsIf};

// Puts the cut from `a` up to `e` at the place `k`, where that is there and the cut fits.
pub fn keep(from: &mut [u16], to: &mut [u16], k: usize, a: usize, e: usize) -> bool
    ensures { KeepsIf from.old to.old k a e from.new to.new result }
{
    if a < 65536 {
        if e < 65536 {
            if k < from.len() {
                if k < to.len() {
                    from[k] = a as u16;
                    to[k] = e as u16;
                    return true;
                }
            }
        }
    }
    false
}
