// One step of t seconds on a layer that is lent by its parts. All is read before anything moves.

#![tactic(auto)]

ghost use Rattle.std.specs.Prelude.{length, true, ◌≡◌, ◌+◌};
ghost use Rattle.rules.specs.Calls.{called};
ghost use Rattle.quantities.specs.Quantities.{within, step_limits, clock_limits};
ghost use Rattle.rules.specs.Record.{soil_of, layer_of, record_of, is_layer};
ghost use Rattle.rules.specs.declared.answers.Call.TheVariants.{Step};
ghost use Rattle.rules.specs.declared.record.Record.{Record};
ghost use Rattle.lent_step.specs.Answers.{step_answered};
ghost use Rattle.lent_step.specs.Read.{ReadAs, SomeRead};

use lent::state;
use rules::answers::Refusal;
use rules::record::{CurveCounts, Frame, Progress, Skeleton};

pub mod reading;

// A step within its limits, on a layer that is set up and read: the layer's progress after it, or a refusal. The water is left as the
// step leaves it.
pub fn step_read<'a>(
    frame: Frame,
    progress: Progress,
    steepness: u64,
    sensitivity: &'a [u64; 128],
    low: &'a [u64; 128],
    high: &'a [u64; 128],
    excess: &'a [i64; 128],
    resistance: &'a [u64; 128],
    water: &mut [u64; 128],
    t: u64,
) -> Result<Progress, Refusal>
    requires some_read { SomeRead frame progress steepness sensitivity.now low.now high.now excess.now resistance.now water.old }
    requires t_value { (within step_limits t ≡ true) × (within clock_limits (progress.clock.0 + t) ≡ true) }
    requires water_len { length water.old ≡ 128 }
    ensures { (r : Record) → ReadAs r frame progress steepness sensitivity.now low.now high.now excess.now resistance.now water.old → step_answered r result water.new ≡ called r (Step t) }
{
    let elements = frame.elements;
    let top = frame.top;
    let bottom = frame.bottom;
    if step_length::too_long(elements, top, bottom, steepness, resistance, sensitivity, t) {
        return Err(Refusal::StepTooLong);
    }
    let mut above = [0i64; 128];
    let moved = layer_step::advance(
        elements, top, bottom, t, excess, resistance, low, high, &mut above, water,
    );
    match moved {
        None => Err(Refusal::StepOffCurve),
        Some(flows) => Ok(state::later(progress, t, flows)),
    }
}

// A step within its limits, on a layer that is lent by its parts: it is set up, read, and then moved.
pub fn step_lent<'a>(
    counts: CurveCounts,
    frame: Frame,
    progress: Progress,
    void: &'a [u64; 64],
    stress: &'a [u64; 64],
    conductivity_void: &'a [u64; 64],
    conductivity: &'a [u64; 64],
    solids: &'a [u64; 128],
    water: &mut [u64; 128],
    table_time: &'a [u64; 64],
    table_load: &'a [u64; 64],
    t: u64,
) -> Result<Progress, Refusal>
    requires r_value { let r : Record = record_of (soil_of counts void.now stress.now conductivity_void.now conductivity.now) (layer_of frame progress solids.now water.old table_time.now table_load.now) in is_layer r ≡ true }
    requires t_value { (within step_limits t ≡ true) × (within clock_limits (progress.clock.0 + t) ≡ true) }
    requires water_len { length water.old ≡ 128 }
    ensures { let r : Record = record_of (soil_of counts void.now stress.now conductivity_void.now conductivity.now) (layer_of frame progress solids.now water.old table_time.now table_load.now) in step_answered r result water.new ≡ called r (Step t) }
{
    let mut sensitivity = [0u64; 128];
    let mut low = [0u64; 128];
    let mut high = [0u64; 128];
    let points = counts.compressibility;
    let steepness = layer_step::prepare(
        frame.elements,
        solids,
        Skeleton { points },
        void,
        stress,
        &mut sensitivity,
        &mut low,
        &mut high,
    );
    let mut excess = [0i64; 128];
    let mut resistance = [0u64; 128];
    reading::read_layer(
        counts,
        frame,
        progress.load,
        void,
        stress,
        conductivity_void,
        conductivity,
        solids,
        water,
        &mut excess,
        &mut resistance,
    );
    step_read(
        frame,
        progress,
        steepness,
        &sensitivity,
        &low,
        &high,
        &excess,
        &resistance,
        water,
        t,
    )
}
