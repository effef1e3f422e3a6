ghost use Rattle.std.specs.Prelude.{◌≡◌, ℕ, bit_xor};
ghost use Rattle.ghash.specs.Ghash.{times_x, gmul};

// R, by which x^128 is reduced.
const REDUCTION: u128 = 0xe1000000000000000000000000000000;

// v times the polynomial x: one place to the right, reduced.
fn times_x(v: u128) -> u128
    ensures { result ≡ times_x v }
{
    if v % 2 == 1 { v / 2 ^ REDUCTION } else { v / 2 }
}

/// The product of two blocks. It is linear in the first of them.
pub fn product(x: u128, y: u128) -> u128
    ensures value { result ≡ gmul x y }
    ensures linear { (u v : ℕ) → gmul (bit_xor u v) y ≡ bit_xor (gmul u y) (gmul v y) }
{
    let mut z = 0;
    let mut v = y;
    // The bits of x that are left, from the next one down.
    let mut bits = x;
    for _ in 0..128u32 {
        if bits >> 127 == 1 {
            z ^= v;
        }
        bits <<= 1;
        v = times_x(v);
    }
    z
}
