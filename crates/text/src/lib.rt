// Numbers as text.

#![tactic(auto)]

ghost use Rattle.std.specs.Prelude.{pos, nat_abs, length, take, ◌<ℤ◌, [], ◌∷◌, ◌≡◌, ℕ, ◌+◌, ◌*◌, ◌≤◌, ◌<◌};
ghost use Rattle.text.specs.Text.{decimal, signed_decimal, spaced, signed_spaced, row, trimmed, Put};

// Stores a byte, and gives the place after it.
pub fn put_byte(out: &mut [u8], at: usize, byte: u8) -> usize
    requires { at < length out.old }
    ensures { Put (byte ∷ []) out.old at out.new result }
{
    out[at] = byte;
    at + 1
}

// The digit of a number below ten.
fn digit(n: u64) -> u8
    requires { n < 10 }
    ensures { result ≡ 48 + n }
{
    48 + n as u8
}

// Stores the digits of a number, and gives the place after them.
pub fn put_decimal(out: &mut [u8], at: usize, n: u64) -> usize
    requires { at + length (decimal n) ≤ length out.old }
    ensures { Put (decimal n) out.old at out.new result }
{
    if n < 10 {
        put_byte(out, at, digit(n))
    } else {
        let next = put_decimal(out, at, n / 10);
        put_byte(out, next, digit(n % 10))
    }
}

// The size of a negative number.
fn size(z: i64) -> u64
    requires { z <ℤ pos 0 }
    ensures { result ≡ nat_abs z }
{
    z.unsigned_abs()
}

// Stores a signed number in decimal, and gives the place after it.
pub fn put_signed(out: &mut [u8], at: usize, z: i64) -> usize
    requires { at + length (signed_decimal z) ≤ length out.old }
    ensures { Put (signed_decimal z) out.old at out.new result }
{
    if z < 0 {
        let next = put_byte(out, at, b'-');
        put_decimal(out, next, size(z))
    } else {
        put_decimal(out, at, z as u64)
    }
}

// Stores a number after a space, and gives the place after it.
pub fn put_number(out: &mut [u8], at: usize, n: u64) -> usize
    requires { at + 21 ≤ length out.old }
    ensures put { Put (spaced n) out.old at out.new result }
    ensures upper_bound { result ≤ at + 21 }
{
    let next = put_byte(out, at, b' ');
    put_decimal(out, next, n)
}

// Stores a signed number after a space, and gives the place after it.
pub fn put_signed_number(out: &mut [u8], at: usize, z: i64) -> usize
    requires { at + 22 ≤ length out.old }
    ensures put { Put (signed_spaced z) out.old at out.new result }
    ensures upper_bound { result ≤ at + 22 }
{
    let next = put_byte(out, at, b' ');
    put_signed(out, next, z)
}

// Stores the first n numbers, each after a space, and gives the place after them.
pub fn put_row(out: &mut [u8], at: usize, values: &[u64], n: usize) -> usize
    requires n_in_bounds { n ≤ length values.now }
    requires n_in_bounds_2 { at + 21 * n ≤ length out.old }
    ensures put { Put (row (take n values.now)) out.old at out.new result }
    ensures upper_bound { result ≤ at + 21 * n }
{
    let mut next = at;
    for i in 0..n {
        next = put_number(out, next, values[i]);
    }
    next
}

// The number of places up to the last one that is not 0.
#[tactic(auto, using(crate::proofs::Laws::trimmed_less, crate::proofs::Laws::trimmed_all), unfolding(crate::specs::Text::trimmed))]
pub fn used(values: &[u64]) -> usize
    ensures { (take result values.now ≡ trimmed values.now) × (result ≤ length values.now) }
{
    for i in (0..values.len()).rev() {
        if values[i] != 0 {
            return i + 1;
        }
    }
    0
}
