// Opening a job's bytes into arrays.

#![tactic(auto)]

ghost use Rattle.std.specs.Prelude.{length, ◌≡◌};
ghost use Rattle.job.specs.Pairs.{Blank, Pairs};
ghost use Rattle.opening.specs.Opened.{opened_job, left_description, left_burden};

use job::{framing, pairs};
use rules::answers::Refusal;
use rules::job::Header;
use rules::record::{Frame, Progress};

// What an opened job gives beside its arrays: its header and the numbers of its layer.
#[derive(Clone, Copy)]
pub struct Opened {
    pub header: Header,
    pub frame: Frame,
    pub progress: Progress,
}

// Opens a job, whatever its bytes, into arrays of zeros.
pub fn open_into<'a>(
    job: &'a [u8],
    void: &mut [u64; 64],
    stress: &mut [u64; 64],
    conductivity_void: &mut [u64; 64],
    conductivity: &mut [u64; 64],
    solids: &mut [u64; 128],
    water: &mut [u64; 128],
    table_time: &mut [u64; 64],
    table_load: &mut [u64; 64],
    burden: &mut [u64; 128],
) -> Result<Opened, Refusal>
    requires blank { Blank solids.old water.old void.old stress.old conductivity_void.old conductivity.old table_time.old table_load.old }
    requires burden_len { length burden.old ≡ 128 }
    ensures value { result ≡ opened_job job.now }
    ensures pairs { Pairs (left_description job.now) solids.new water.new void.new stress.new conductivity_void.new conductivity.new table_time.new table_load.new }
    ensures burden_after { burden.new ≡ left_burden job.now burden.old }
{
    let header = framing::frame(job)?;
    pairs::read_pairs(
        job,
        header,
        solids,
        water,
        void,
        stress,
        conductivity_void,
        conductivity,
        table_time,
        table_load,
    );
    let accepted = acceptance::accept(
        header,
        void,
        stress,
        conductivity_void,
        conductivity,
        solids,
        water,
        table_time,
        table_load,
        burden,
    )?;
    Ok(Opened {
        header,
        frame: accepted.frame,
        progress: accepted.progress,
    })
}
