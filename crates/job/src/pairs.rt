// The pairs of a job.
ghost use Rattle.std.specs.Prelude.{length, true, ◌≡◌};
ghost use Rattle.job.specs.Pairs.{Blank, Pairs};
ghost use Rattle.rules.specs.Job.{described, header_sound, job_length};

use crate::header::{HEADER_LENGTH, PAIR_LENGTH};
use rules::job::Header;

// Reads the pairs of a job that is refused for none of the causes 1 to 4 and has this header.
pub fn read_pairs<'a>(
    job: &'a [u8],
    header: Header,
    solids: &mut [u64; 128],
    water: &mut [u64; 128],
    compressibility_void: &mut [u64; 64],
    compressibility_stress: &mut [u64; 64],
    conductivity_void: &mut [u64; 64],
    conductivity: &mut [u64; 64],
    table_time: &mut [u64; 64],
    table_load: &mut [u64; 64],
)
    requires header_value { header ≡ (described job.now).header }
    requires header_value_2 { (header_sound header ≡ true) × (length job.now ≡ job_length header) }
    requires blank { Blank solids.old water.old compressibility_void.old compressibility_stress.old conductivity_void.old conductivity.old table_time.old table_load.old }
    ensures { Pairs (described job.now) solids.new water.new compressibility_void.new compressibility_stress.new conductivity_void.new conductivity.new table_time.new table_load.new }
{
    let elements = header.elements;
    let compressibility_points = header.compressibility_points;
    let conductivity_points = header.conductivity_points;
    let table_points = header.table_points;
    let compressibility_at = HEADER_LENGTH + PAIR_LENGTH * elements;
    let conductivity_at = compressibility_at + PAIR_LENGTH * compressibility_points;
    let table_at = conductivity_at + PAIR_LENGTH * conductivity_points;
    encoding::read_column(job, PAIR_LENGTH, HEADER_LENGTH, elements, solids);
    encoding::read_column(job, PAIR_LENGTH, HEADER_LENGTH + 8, elements, water);
    encoding::read_column(
        job,
        PAIR_LENGTH,
        compressibility_at,
        compressibility_points,
        compressibility_stress,
    );
    encoding::read_column(
        job,
        PAIR_LENGTH,
        compressibility_at + 8,
        compressibility_points,
        compressibility_void,
    );
    encoding::read_column(
        job,
        PAIR_LENGTH,
        conductivity_at,
        conductivity_points,
        conductivity_void,
    );
    encoding::read_column(
        job,
        PAIR_LENGTH,
        conductivity_at + 8,
        conductivity_points,
        conductivity,
    );
    encoding::read_column(job, PAIR_LENGTH, table_at, table_points, table_time);
    encoding::read_column(job, PAIR_LENGTH, table_at + 8, table_points, table_load);
}
