// Given bytes at a place. See specs/laws/Starting.antt.
ghost use Rattle.std.specs.Prelude.{◌≡◌, ◌≤◌, length, drop};
ghost use Rattle.octets.specs.Words.{starts};

// Whether `w` stands in `s` at the place `at`.
pub fn starts_at(s: &[u8], at: usize, w: &[u8]) -> bool
    requires { at ≤ length s.now }
    ensures { result ≡ starts w.now (drop at s.now) }
{
    let mut j = 0;
    while j < w.len() {
        let k = at + j;
        if k < s.len() {
            if s[k] == w[j] {
                j += 1;
            } else {
                return false;
            }
        } else {
            return false;
        }
    }
    true
}
