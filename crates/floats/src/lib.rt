// The exact value of a 32-bit float in another unit, from its bits.

#![tactic(auto)]

ghost use Rattle.std.specs.Prelude.{T, ◌≡◌, ◌-◌, ◌*◌, ◌/◌, ◌^◌, ◌≤◌, ◌<◌};
ghost use Rattle.std.specs.Float.{binary32};
ghost use Rattle.std.specs.Float.Ieee.{to_bits};
ghost use Rattle.floats.specs.Binary32.{exponent_field, mantissa, power, at_most, in_units, plain_bits, float_of};

// The field of the exponent.
pub fn exponent_field(bits: u32) -> u64
    ensures { result ≡ exponent_field bits }
{
    (bits / 8_388_608 % 256) as u64
}

// The whole number of a float: its fraction, under a leading 1 where the field is not 0.
pub fn mantissa(bits: u32) -> u64
    ensures { result ≡ mantissa bits }
{
    let fraction = (bits % 8_388_608) as u64;
    if exponent_field(bits) == 0 {
        fraction
    } else {
        8_388_608 + fraction
    }
}

// How often the mantissa of a float with a field of at most 150 is halved: its power of two is not above 0.
pub fn halvings(bits: u32) -> u64
    requires { exponent_field bits ≤ 150 }
    ensures { result ≡ 149 - power bits }
{
    let field = exponent_field(bits);
    if field == 0 { 149 } else { 150 - field }
}

// A mantissa in a unit, halved so often, rounded down. Its product with the unit is below 2^54, so nothing is left of it after more
// than 54 halvings.
pub fn halved(mantissa: u64, unit: u64, halvings: u64) -> u64
    requires { (mantissa < 2 ^ 24) × (unit ≤ 1_000_000_000) }
    ensures { result ≡ mantissa * unit / 2 ^ halvings }
{
    if 54 < halvings {
        return 0;
    }
    mantissa * unit / powers::power_of_two(halvings)
}

// The exact value that bits with a field of at most 150 say, in a unit, cut toward zero.
pub fn bits_in_units(bits: u32, unit: u64) -> i64
    requires { (exponent_field bits ≤ 150) × (unit ≤ 1_000_000_000) }
    ensures { result ≡ in_units unit bits }
{
    let size = halved(mantissa(bits), unit, halvings(bits)) as i64;
    if bits < 2_147_483_648 { size } else { -size }
}

// Whether a float is finite and at most 2,000 in size. No comparison holds of a NaN.
pub fn at_most_2000(x: f32) -> bool
    ensures { result ≡ at_most 2_000 (to_bits binary32 x) }
{
    -2000.0 <= x && x <= 2000.0
}

// Whether a float is finite and at most 200 in size.
pub fn at_most_200(x: f32) -> bool
    ensures { result ≡ at_most 200 (to_bits binary32 x) }
{
    -200.0 <= x && x <= 200.0
}

// The exact value of a float of at most 2,000 in size in a unit, cut toward zero.
pub fn in_units(x: f32, unit: u64) -> i64
    requires { T (at_most 2_000 (to_bits binary32 x)) × (unit ≤ 1_000_000_000) }
    ensures { result ≡ in_units unit (to_bits binary32 x) }
{
    bits_in_units(f32::to_bits(x), unit)
}

// Any 32 bits but a NaN's as they are, and an infinity's for every NaN's.
pub fn plain_bits(bits: u32) -> u32
    ensures { result ≡ plain_bits bits }
{
    if 2_139_095_040 < bits % 2_147_483_648 {
        return 2_139_095_040;
    }
    bits
}

// The float of any 32 bits; an infinity stands for every NaN.
pub fn of_bits(bits: u32) -> f32
    ensures { result ≡ float_of bits }
{
    f32::from_bits(plain_bits(bits))
}
