// Folds taken out of a text, and the place that a kept byte has in it. See specs/Unfold.antt.
ghost use Rattle.std.specs.Prelude.{◌≡◌, ◌+◌, ◌≤◌, ◌<◌, eqb, drop};
ghost use Rattle.std.proofs.Math.ListN.{length};
ghost use Rattle.octets.specs.Pick.{◌or◌};
ghost use Rattle.folding.specs.Unfold.{fold_at, origin, Unfolds};

fn is_blank(b: u8) -> bool
    ensures { result ≡ (eqb b 32 or eqb b 9) }
{
    (b == b' ') | (b == b'\t')
}

// Whether a fold stands at an index: CR, LF, and a space or a TAB.
pub fn fold_at(s: &[u8], at: usize) -> bool
    requires { at < length s.now }
    ensures { result ≡ fold_at (drop at s.now) }
{
    if s[at] == b'\r' {
        if 3 <= s.len() - at {
            if s[at + 1] == b'\n' {
                return is_blank(s[at + 2]);
            }
        }
    }
    false
}

// The kept bytes of `s`, at the front of `work`, which keeps its other bytes; and how many they are.
pub fn unfold(s: &[u8], work: &mut [u8]) -> usize
    requires { length s.now ≤ length work.old }
    ensures { Unfolds s.now work.old work.new result }
{
    let mut at = 0;
    let mut n = 0;
    while at < s.len() {
        if fold_at(s, at) {
            at += 3;
        } else {
            work[n] = s[at];
            n += 1;
            at += 1;
        }
    }
    n
}

// The place in `s` of the kept byte that is number `w`, or the length of `s`.
pub fn place_of(s: &[u8], w: usize) -> usize
    ensures { result ≡ origin s.now w }
{
    let mut at = 0;
    let mut left = w;
    while at < s.len() {
        if fold_at(s, at) {
            at += 3;
        } else {
            if left == 0 {
                return at;
            }
            left -= 1;
            at += 1;
        }
    }
    s.len()
}
