// The loop of a run: pass after pass, each under the table's load at its clock.

#![tactic(auto)]

ghost use Rattle.std.specs.Prelude.{length, true, ◌≡◌, ◌≤◌};
ghost use Rattle.lent.specs.Worked.{WorkedOut};
ghost use Rattle.quantities.specs.Quantities.{clock_limits, budget_limits};
ghost use Rattle.rules.specs.Calls.{ended_run};
ghost use Rattle.rules.specs.Record.{soil_of, layer_of, record_of, with_parts, is_layer};
ghost use Rattle.rules.specs.declared.record.Record.{Record};

use rules::answers::{Ended, Stop};
use rules::record::{CurveCounts, Frame, Progress};

// What a run ends with.
pub fn ended(stop: Stop, steps: u64, progress: Progress) -> Ended
    ensures { result ≡ record { stop = stop; steps = steps; progress = progress } }
{
    Ended {
        stop,
        steps,
        progress,
    }
}

// A run within its limits, on a layer that is lent by its parts with what is worked out once for it; the water is left as the run
// leaves it.
pub fn passes<'a>(
    counts: CurveCounts,
    frame: Frame,
    progress: Progress,
    void: &'a [u64; 64],
    stress: &'a [u64; 64],
    conductivity_void: &'a [u64; 64],
    conductivity: &'a [u64; 64],
    solids: &'a [u64; 128],
    water: &mut [u64; 128],
    table_time: &'a [u64; 64],
    table_load: &'a [u64; 64],
    burden: &'a [u64; 128],
    sensitivity: &'a [u64; 128],
    low: &'a [u64; 128],
    high: &'a [u64; 128],
    steepness: u64,
    end: u64,
    budget: u64,
) -> Ended
    requires r_value { let r : Record = record_of (soil_of counts void.now stress.now conductivity_void.now conductivity.now) (layer_of frame progress solids.now water.old table_time.now table_load.now) in is_layer r ≡ true }
    requires clock_le_end { (progress.clock.0 ≤ end) × (end ≤ clock_limits.most) × (budget ≤ budget_limits.most) }
    requires worked_out { let r : Record = record_of (soil_of counts void.now stress.now conductivity_void.now conductivity.now) (layer_of frame progress solids.now water.old table_time.now table_load.now) in WorkedOut r burden.now sensitivity.now low.now high.now steepness }
    requires water_len { length water.old ≡ 128 }
    ensures { let r : Record = record_of (soil_of counts void.now stress.now conductivity_void.now conductivity.now) (layer_of frame progress solids.now water.old table_time.now table_load.now) in ended_run r end budget ≡ record { stop = result.stop; steps = result.steps; after = with_parts r water.new result.progress } }
{
    let mut stress_segment = [0usize; 128];
    let mut conductivity_segment = [0usize; 128];
    let mut excess = [0i64; 128];
    let mut resistance = [0u64; 128];
    let mut above = [0i64; 128];
    let mut now = progress;
    let mut steps: u64 = 0;
    while now.clock.0 != end {
        if steps == budget {
            return ended(Stop::BudgetUsed, steps, now);
        }
        match pass::pass(
            counts,
            frame,
            now,
            void,
            stress,
            conductivity_void,
            conductivity,
            solids,
            water,
            table_time,
            table_load,
            burden,
            sensitivity,
            low,
            high,
            steepness,
            end,
            &mut stress_segment,
            &mut conductivity_segment,
            &mut excess,
            &mut resistance,
            &mut above,
        ) {
            Err(stopped) => return ended(stopped.stop, steps, stopped.progress),
            Ok(after) => now = after,
        }
        steps += 1;
    }
    ended(Stop::AtEnd, steps, now)
}
