// Places in a lent array. A place past the end is 0, and none is put there.
ghost use Rattle.std.specs.Prelude.{◌≡◌, ◌<◌, get_or};

fn wide(x: u16) -> usize
    ensures { (result ≡ x) × (result < 65536) }
{
    x as usize
}

// The place of the number `i`.
pub fn place_at(a: &[u16], i: usize) -> usize
    ensures { (result ≡ get_or a.now i 0) × (result < 65536) }
{
    if i < a.len() {
        return wide(a[i]);
    }
    0
}

// Puts the place `x` at the number `i`, where it fits.
pub fn put_place(a: &mut [u16], i: usize, x: usize) {
    if x < 65536 {
        if i < a.len() {
            a[i] = x as u16;
        }
    }
}

// Exchanges two places.
pub fn swap(a: &mut [u16], i: usize, j: usize) {
    let x = place_at(a, i);
    let y = place_at(a, j);
    put_place(a, i, y);
    put_place(a, j, x);
}
