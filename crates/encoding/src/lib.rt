// Numbers as little-endian fields of bytes: read, and written.

#![tactic(auto)]

ghost use Rattle.std.specs.Prelude.{length, ◌≡◌, ◌+◌, ◌*◌, ◌≤◌, ◌<◌};
ghost use Rattle.std.proofs.lemmas.List.Edits.{sets};
ghost use Rattle.numbers.specs.Arrays.{filled};
ghost use Rattle.numbers.specs.Bytes.{bytes as numbers·bytes, field, column, signed_number};
ghost use Rattle.numbers.specs.Integers.{signed_field};

// The number in a field of so many bytes, lowest first.
pub fn field(bytes: &[u8], size: usize, offset: usize) -> u64
    requires { (size ≤ 8) × (offset + size ≤ length bytes.now) }
    ensures { result ≡ field size offset bytes.now }
{
    let mut value: u64 = 0;
    for i in (0..size).rev() {
        value = bytes[offset + i] as u64 + 256 * value;
    }
    value
}

// The number in a field of one byte.
pub fn byte(bytes: &[u8], offset: usize) -> u8
    requires { offset < length bytes.now }
    ensures { result ≡ field 1 offset bytes.now }
{
    bytes[offset]
}

// Puts so many 64-bit fields, the first at an offset and each a stride after the one before, in the first places of an array.
pub fn read_column<'a>(
    bytes: &'a [u8],
    stride: usize,
    offset: usize,
    count: usize,
    numbers: &mut [u64],
)
    requires { (count ≤ length numbers.old) × (offset + stride * count + 8 ≤ length bytes.now + stride) }
    ensures { numbers.new ≡ filled numbers.old count (column stride offset bytes.now) }
{
    for i in 0..count {
        numbers[i] = field(bytes, 8, offset + stride * i);
    }
}

// The bits of a signed number, as a field holds them.
pub fn signed_field(z: i64) -> u64
    ensures { result ≡ signed_field z }
{
    z.cast_unsigned()
}

// The signed number whose bits a field holds.
pub fn signed_number(field: u64) -> i64
    ensures { result ≡ signed_number field }
{
    field.cast_signed()
}

// Stores a 64-bit number, lowest byte first.
pub fn put_word(out: &mut [u8], at: usize, n: u64)
    requires { at + 8 ≤ length out.old }
    ensures { out.new ≡ sets out.old at (numbers·bytes 8 n) }
{
    out[at..at + 8].copy_from_slice(&n.to_le_bytes());
}

// Stores a signed 64-bit number.
pub fn put_signed(out: &mut [u8], at: usize, z: i64)
    requires { at + 8 ≤ length out.old }
    ensures { out.new ≡ sets out.old at (numbers·bytes 8 (signed_field z)) }
{
    put_word(out, at, signed_field(z));
}
