// One pass of a run: the table's load is set, the layer is read, and the longest step within reach is taken.

#![tactic(auto)]

ghost use Rattle.std.specs.Prelude.{length, true, ◌≡◌, ◌≤◌, ◌<◌};
ghost use Rattle.layer.specs.Segments.{Segments};
ghost use Rattle.lent.specs.Worked.{WorkedOut, excesses_in, resistances_in};
ghost use Rattle.pass.specs.Passing.{under_table, longest, found, passed, passed_by, flows_turned};
ghost use Rattle.quantities.specs.Quantities.{clock_limits};
ghost use Rattle.rules.specs.Record.{soil_of, layer_of, record_of, is_layer};
ghost use Rattle.rules.specs.declared.record.Record.{Record};

use lent::state;
use quantities::{Quantity, Seconds};
use rules::answers::Stop;
use rules::record::{CurveCounts, Frame, Progress};

// Why a run stops, and the layer's progress under the table's load as it stops.
#[derive(Clone, Copy)]
pub struct Stopped {
    pub stop: Stop,
    pub progress: Progress,
}

// One pass before the end, on a layer that is lent by its parts with what is worked out once for it: the table's load is set, the
// layer is read, and the longest step within reach is taken. It gives the progress after its step.
pub fn pass<'a>(
    counts: CurveCounts,
    frame: Frame,
    progress: Progress,
    void: &'a [u64; 64],
    stress: &'a [u64; 64],
    conductivity_void: &'a [u64; 64],
    conductivity: &'a [u64; 64],
    solids: &'a [u64; 128],
    water: &mut [u64; 128],
    table_time: &'a [u64; 64],
    table_load: &'a [u64; 64],
    burden: &'a [u64; 128],
    sensitivity: &'a [u64; 128],
    low: &'a [u64; 128],
    high: &'a [u64; 128],
    steepness: u64,
    end: u64,
    stress_segment: &mut [usize; 128],
    conductivity_segment: &mut [usize; 128],
    excess: &mut [i64; 128],
    resistance: &mut [u64; 128],
    above: &mut [i64; 128],
) -> Result<Progress, Stopped>
    requires r_value { let r : Record = record_of (soil_of counts void.now stress.now conductivity_void.now conductivity.now) (layer_of frame progress solids.now water.old table_time.now table_load.now) in is_layer r ≡ true }
    requires clock_lt_end { (progress.clock.0 < end) × (end ≤ clock_limits.most) }
    requires worked_out { let r : Record = record_of (soil_of counts void.now stress.now conductivity_void.now conductivity.now) (layer_of frame progress solids.now water.old table_time.now table_load.now) in WorkedOut r burden.now sensitivity.now low.now high.now steepness }
    requires water_len { (length water.old ≡ 128) × (length excess.old ≡ 128) × (length resistance.old ≡ 128) × (length above.old ≡ 128) × (length stress_segment.old ≡ 128) × (length conductivity_segment.old ≡ 128) }
    ensures value { let r : Record = record_of (soil_of counts void.now stress.now conductivity_void.now conductivity.now) (layer_of frame progress solids.now water.old table_time.now table_load.now) in result ≡ passed_by (found r end) (passed r end).layer.progress }
    ensures water_after { let r : Record = record_of (soil_of counts void.now stress.now conductivity_void.now conductivity.now) (layer_of frame progress solids.now water.old table_time.now table_load.now) in water.new ≡ (passed r end).layer.water }
    ensures above_after { let r : Record = record_of (soil_of counts void.now stress.now conductivity_void.now conductivity.now) (layer_of frame progress solids.now water.old table_time.now table_load.now) in above.new ≡ flows_turned (under_table r) (longest r end) above.old }
    ensures excess_after { let r : Record = record_of (soil_of counts void.now stress.now conductivity_void.now conductivity.now) (layer_of frame progress solids.now water.old table_time.now table_load.now) in excess.new ≡ excesses_in (under_table r) excess.old }
    ensures resistance_after { let r : Record = record_of (soil_of counts void.now stress.now conductivity_void.now conductivity.now) (layer_of frame progress solids.now water.old table_time.now table_load.now) in resistance.new ≡ resistances_in (under_table r) resistance.old }
    ensures segments { Segments frame.elements counts.compressibility stress_segment.old stress_segment.new }
    ensures segments_2 { Segments frame.elements counts.conductivity conductivity_segment.old conductivity_segment.new }
{
    let elements = frame.elements;
    let top = frame.top;
    let bottom = frame.bottom;
    let clock = progress.clock.0;
    let load = table::load_at(frame.table_points, table_time, table_load, clock);
    let under = state::loaded(progress, load);
    layer::read_elements(
        elements,
        under.load,
        counts,
        void,
        stress,
        conductivity_void,
        conductivity,
        burden,
        solids,
        water,
        stress_segment,
        conductivity_segment,
        excess,
        resistance,
    );
    let next = table::next_time(frame.table_points, table_time, clock, end);
    let most = Seconds::LIMITS.most.min(end.min(next) - clock);
    match layer_step::advance_longest(
        elements,
        top,
        bottom,
        most,
        steepness,
        sensitivity,
        excess,
        resistance,
        low,
        high,
        above,
        water,
    ) {
        Err(stop) => Err(Stopped {
            stop,
            progress: under,
        }),
        Ok(taken) => Ok(state::later(under, taken.seconds, taken.flows)),
    }
}
