// The bytes of a job.
ghost use Rattle.std.specs.Prelude.{length, true, ◌≡◌, ◌+◌, ◌*◌, ◌≤◌};
ghost use Rattle.std.proofs.lemmas.List.Edits.{sets};
ghost use Rattle.description.specs.Lent.{description_of};
ghost use Rattle.numbers.specs.Arrays.{overlaid};
ghost use Rattle.rules.specs.Job.{Description, header_length, header_sound, job_length, pair_length};
ghost use Rattle.writer.specs.Writing.{before_levels, header_bytes, pair_bytes, pairs_bytes, job_bytes};

use job::header::{HEADER_LENGTH, PAIR_LENGTH};
use rules::job::Header;

// Stores bytes 0 to 15: the mark, the version, and the fields of one and two bytes.
#[tactic(auto, unfolding(numbers::specs::Bytes::bytes))]
pub fn write_start(out: &mut [u8], header: Header)
    requires { 16 ≤ length out.old }
    ensures { out.new ≡ sets out.old 0 (before_levels header) }
{
    out[0] = b'L';
    out[1] = b'S';
    out[2] = b'C';
    out[3] = 1;
    out[4] = 0;
    out[5] = (header.top % 0x100) as u8;
    out[6] = (header.bottom % 0x100) as u8;
    out[7] = (header.elements % 0x100) as u8;
    out[8] = (header.compressibility_points % 0x100) as u8;
    out[9] = (header.conductivity_points % 0x100) as u8;
    out[10] = (header.table_points % 0x100) as u8;
    out[11] = (header.start % 0x100) as u8;
    out[12] = (header.gravity % 0x100) as u8;
    out[13] = (header.gravity / 0x100 % 0x100) as u8;
    out[14] = 0;
    out[15] = 0;
}

// Stores a header.
pub fn write_header(out: &mut [u8], header: Header)
    requires { header_length ≤ length out.old }
    ensures { out.new ≡ sets out.old 0 (header_bytes header) }
{
    write_start(out, header);
    encoding::put_word(out, 16, header.top_level);
    encoding::put_word(out, 24, header.bottom_level);
    encoding::put_word(out, 32, header.end);
    encoding::put_word(out, 40, header.budget);
}

// Stores a pair.
pub fn put_pair(out: &mut [u8], at: usize, first: u64, second: u64)
    requires { at + pair_length ≤ length out.old }
    ensures { out.new ≡ sets out.old at (pair_bytes first second) }
{
    encoding::put_word(out, at, first);
    encoding::put_word(out, at + 8, second);
}

// Stores so many pairs, from the first places of two arrays.
#[tactic(auto, using(crate::proofs::Stores::pairs_stored), unfolding(crate::specs::Writing::pairs_bytes))]
pub fn put_pairs<'a>(out: &mut [u8], at: usize, count: usize, firsts: &'a [u64], seconds: &'a [u64])
    requires { (count ≤ length firsts.now) × (count ≤ length seconds.now) × (at + pair_length * count ≤ length out.old) }
    ensures { out.new ≡ sets out.old at (pairs_bytes count firsts.now seconds.now) }
{
    for i in 0..count {
        put_pair(out, at + PAIR_LENGTH * i, firsts[i], seconds[i]);
    }
}

// Stores all bytes of a job that has room, at the beginning of a buffer.
#[tactic(auto, using(job::proofs::Counts::counted))]
pub fn write_bytes<'a>(
    header: Header,
    void: &'a [u64; 64],
    stress: &'a [u64; 64],
    conductivity_void: &'a [u64; 64],
    conductivity: &'a [u64; 64],
    solids: &'a [u64; 128],
    water: &'a [u64; 128],
    table_time: &'a [u64; 64],
    table_load: &'a [u64; 64],
    out: &mut [u8],
)
    requires header_value { (header_sound header ≡ true) × (job_length header ≤ length out.old) }
    ensures { let d : Description = description_of header void.now stress.now conductivity_void.now conductivity.now solids.now water.now table_time.now table_load.now in out.new ≡ overlaid (job_bytes d) out.old }
{
    let elements = header.elements;
    let compressibility_points = header.compressibility_points;
    let conductivity_points = header.conductivity_points;
    let compressibility_at = HEADER_LENGTH + PAIR_LENGTH * elements;
    let conductivity_at = compressibility_at + PAIR_LENGTH * compressibility_points;
    let table_at = conductivity_at + PAIR_LENGTH * conductivity_points;
    write_header(out, header);
    put_pairs(out, HEADER_LENGTH, elements, solids, water);
    put_pairs(
        out,
        compressibility_at,
        compressibility_points,
        stress,
        void,
    );
    put_pairs(
        out,
        conductivity_at,
        conductivity_points,
        conductivity_void,
        conductivity,
    );
    put_pairs(out, table_at, header.table_points, table_time, table_load);
}
