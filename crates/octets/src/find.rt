// The first CR of a list, by the kit's `memchr`. See specs/Find.antt.
ghost use Rattle.std.specs.Prelude.{◌≡◌, ◌≤◌, length};
ghost use Rattle.octets.specs.Scan.{span_end};
ghost use Rattle.octets.specs.Find.{without, is_return};

use memchr::memchr;

// The first CR from `from` on, or the length.
pub fn find_return(s: &[u8], from: usize) -> usize
    requires { from ≤ length s.now }
    ensures { result ≡ span_end (without is_return) s.now from }
{
    match memchr(b'\r', &s[from..]) {
        Some(k) => from + k,
        None => s.len(),
    }
}
