// Numbers in lent arrays. A number past the end is 0, and none is put there.
ghost use Rattle.std.specs.Prelude.{◌≡◌, get_or};

fn wide(x: u16) -> usize
    ensures { result ≡ x }
{
    x as usize
}

// The number at the place `i`.
pub fn number_at(a: &[u16], i: usize) -> usize
    ensures { result ≡ get_or a.now i 0 }
{
    if i < a.len() { wide(a[i]) } else { 0 }
}

// Puts the number `x` at the place `i`.
pub fn put_number(a: &mut [u16], i: usize, x: usize) {
    if x < 65536 && i < a.len() {
        a[i] = x as u16;
    }
}

// Exchanges the numbers at two places.
pub fn swap(a: &mut [u16], i: usize, j: usize) {
    let x = number_at(a, i);
    let y = number_at(a, j);
    put_number(a, i, y);
    put_number(a, j, x);
}

// 0, 1, 2 and so on below `n`.
pub fn count_up(a: &mut [u16], n: usize) {
    let mut i = 0;
    while i < n {
        put_number(a, i, i);
        i += 1;
    }
}
