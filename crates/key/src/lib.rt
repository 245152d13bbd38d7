// The key: from a job's bytes to the result's.

#![tactic(auto)]

ghost use Rattle.std.specs.Prelude.{length, true, ◌≡◌, ◌≤◌};
ghost use Rattle.lent.specs.Burdens.{burdens_in};
ghost use Rattle.key.specs.Water.{water_run};
ghost use Rattle.rules.specs.Job.{counts_of};
ghost use Rattle.rules.specs.Key.{key, run_to_result};
ghost use Rattle.quantities.specs.Quantities.{clock_limits, budget_limits};
ghost use Rattle.rules.specs.Record.{soil_of, layer_of, record_of, is_layer};
ghost use Rattle.rules.specs.declared.record.Record.{Record};

use acceptance::record;
use rules::answers::Refusal;
use rules::job::Header;
use rules::record::{Frame, Progress};

pub mod job_readings;
pub mod written_job;

// Runs a layer that is lent by its parts with its burdens to its header's end within its budget, and writes its result. Where that
// has no room, there is no run.
pub fn run_to_result<'a>(
    header: Header,
    frame: Frame,
    progress: Progress,
    void: &'a [u64; 64],
    stress: &'a [u64; 64],
    conductivity_void: &'a [u64; 64],
    conductivity: &'a [u64; 64],
    solids: &'a [u64; 128],
    water: &mut [u64; 128],
    table_time: &'a [u64; 64],
    table_load: &'a [u64; 64],
    burden: &'a [u64; 128],
    out: &mut [u8],
) -> u32
    requires r_value { let r : Record = record_of (soil_of (counts_of header) void.now stress.now conductivity_void.now conductivity.now) (layer_of frame progress solids.now water.old table_time.now table_load.now) in is_layer r ≡ true }
    requires clock_le_end { (progress.clock.0 ≤ header.end) × (header.end ≤ clock_limits.most) × (header.budget ≤ budget_limits.most) }
    requires water_len { (length water.old ≡ 128) × (burden.now ≡ burdens_in frame solids.now) }
    ensures value { let r : Record = record_of (soil_of (counts_of header) void.now stress.now conductivity_void.now conductivity.now) (layer_of frame progress solids.now water.old table_time.now table_load.now) in result ≡ (run_to_result r header.end header.budget out.old).number }
    ensures out_after { let r : Record = record_of (soil_of (counts_of header) void.now stress.now conductivity_void.now conductivity.now) (layer_of frame progress solids.now water.old table_time.now table_load.now) in out.new ≡ (run_to_result r header.end header.budget out.old).buffer }
    ensures water_after { let r : Record = record_of (soil_of (counts_of header) void.now stress.now conductivity_void.now conductivity.now) (layer_of frame progress solids.now water.old table_time.now table_load.now) in water.new ≡ water_run r header.end header.budget out.old }
{
    if out.len() < result::result_size(frame.elements) {
        return result::refused(Refusal::ShortBuffer);
    }
    let counts = record::curve_counts(header);
    let ended = run::run_lent(
        counts,
        frame,
        progress,
        void,
        stress,
        conductivity_void,
        conductivity,
        solids,
        water,
        table_time,
        table_load,
        burden,
        header.end,
        header.budget,
    );
    result::write_lent(
        counts,
        frame,
        ended,
        void,
        stress,
        conductivity_void,
        conductivity,
        solids,
        water,
        table_time,
        table_load,
        burden,
        out,
    );
    0
}

// The key of a job: 0 and the result in the buffer, or the number of the cause and the buffer as it was.
pub fn consolidation_key(job: &[u8], res: &mut [u8]) -> u32
    ensures value { result ≡ (key job.now res.old).number }
    ensures res_after { res.new ≡ (key job.now res.old).buffer }
{
    let mut void = [0; 64];
    let mut stress = [0; 64];
    let mut conductivity_void = [0; 64];
    let mut conductivity = [0; 64];
    let mut solids = [0; 128];
    let mut water = [0; 128];
    let mut table_time = [0; 64];
    let mut table_load = [0; 64];
    let mut burden = [0; 128];
    let opened = opening::open_into(
        job,
        &mut void,
        &mut stress,
        &mut conductivity_void,
        &mut conductivity,
        &mut solids,
        &mut water,
        &mut table_time,
        &mut table_load,
        &mut burden,
    );
    match opened {
        Err(cause) => result::refused(cause),
        Ok(opened) => run_to_result(
            opened.header,
            opened.frame,
            opened.progress,
            &void,
            &stress,
            &conductivity_void,
            &conductivity,
            &solids,
            &mut water,
            &table_time,
            &table_load,
            &burden,
            res,
        ),
    }
}
