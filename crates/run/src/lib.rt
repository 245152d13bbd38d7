// Run: the loop to an end time with a budget, on any record.

#![tactic(auto)]

ghost use Rattle.std.specs.Prelude.{length, true, ◌≡◌, ◌≤◌};
ghost use Rattle.rules.specs.Calls.{called, called_numbers, ended_run};
ghost use Rattle.rules.specs.Outcome.{answer_numbers};
ghost use Rattle.quantities.specs.Quantities.{clock_limits, budget_limits};
ghost use Rattle.rules.specs.Record.{soil_of, layer_of, record_of, with_parts, is_layer};
ghost use Rattle.rules.specs.declared.answers.Call.TheVariants.{Run};
ghost use Rattle.rules.specs.declared.record.Record.{Record};
ghost use Rattle.lent.specs.Burdens.{burdens_in};

use lent::state;
use quantities::{Budget, Clock, Quantity};
use rules::answers::{Answer, Answered, Ended, Refusal, Stop};
use rules::record::{CurveCounts, Frame, Progress, Record, Skeleton};

// A run within its limits, on a layer that is lent by its parts with its burdens; the water is left as the run leaves it. What a run
// works out once is worked out only where it takes a pass.
pub fn run_lent<'a>(
    counts: CurveCounts,
    frame: Frame,
    progress: Progress,
    void: &'a [u64; 64],
    stress: &'a [u64; 64],
    conductivity_void: &'a [u64; 64],
    conductivity: &'a [u64; 64],
    solids: &'a [u64; 128],
    water: &mut [u64; 128],
    table_time: &'a [u64; 64],
    table_load: &'a [u64; 64],
    burden: &'a [u64; 128],
    end: u64,
    budget: u64,
) -> Ended
    requires r_value { let r : Record = record_of (soil_of counts void.now stress.now conductivity_void.now conductivity.now) (layer_of frame progress solids.now water.old table_time.now table_load.now) in is_layer r ≡ true }
    requires clock_le_end { (progress.clock.0 ≤ end) × (end ≤ clock_limits.most) × (budget ≤ budget_limits.most) }
    requires water_len { (length water.old ≡ 128) × (burden.now ≡ burdens_in frame solids.now) }
    ensures { let r : Record = record_of (soil_of counts void.now stress.now conductivity_void.now conductivity.now) (layer_of frame progress solids.now water.old table_time.now table_load.now) in ended_run r end budget ≡ record { stop = result.stop; steps = result.steps; after = with_parts r water.new result.progress } }
{
    if progress.clock.0 == end {
        return passes::ended(Stop::AtEnd, 0, progress);
    }
    if budget == 0 {
        return passes::ended(Stop::BudgetUsed, 0, progress);
    }
    let mut sensitivity = [0u64; 128];
    let mut low = [0u64; 128];
    let mut high = [0u64; 128];
    let points = counts.compressibility;
    let steepness = layer_step::prepare(
        frame.elements,
        solids,
        Skeleton { points },
        void,
        stress,
        &mut sensitivity,
        &mut low,
        &mut high,
    );
    passes::passes(
        counts,
        frame,
        progress,
        void,
        stress,
        conductivity_void,
        conductivity,
        solids,
        water,
        table_time,
        table_load,
        burden,
        &sensitivity,
        &low,
        &high,
        steepness,
        end,
        budget,
    )
}

// A run within its limits, on a layer.
pub fn run_layer(r: Record, end: u64, budget: u64) -> Answered
    requires r_value { is_layer r ≡ true }
    requires clock_le_end { (r.layer.progress.clock.0 ≤ end) × (end ≤ clock_limits.most) × (budget ≤ budget_limits.most) }
    ensures { result ≡ called r (Run end budget) }
{
    let frame = r.layer.frame;
    let mut burden = [0u64; 128];
    weights::burdens(frame.elements, frame.gravity, &r.layer.solids, &mut burden);
    let mut water = r.layer.water;
    let ended = run_lent(
        r.soil.counts,
        r.layer.frame,
        r.layer.progress,
        &r.soil.compressibility_void,
        &r.soil.compressibility_stress,
        &r.soil.conductivity_void,
        &r.soil.conductivity,
        &r.layer.solids,
        &mut water,
        &r.layer.table_time,
        &r.layer.table_load,
        &burden,
        end,
        budget,
    );
    let stop = ended.stop;
    let after = ended.progress;
    Answered {
        answer: Answer::Ran(stop, ended.steps),
        after: state::with_parts(r, water, after),
    }
}

// A run to an end time with a budget, on any record.
pub fn take_run(r: Record, end: u64, budget: u64) -> Answered
    ensures value { result ≡ called r (Run end budget) }
    ensures answer_value { answer_numbers result.answer ≡ called_numbers r (Run end budget) }
{
    if !layer_test::is_layer(r) {
        return state::refused(r, Refusal::NoLayer);
    }
    let clock = r.layer.progress.clock;
    if end < clock.0 {
        return state::refused(r, Refusal::RunOutside);
    }
    let Some(_) = Clock::new(end) else {
        return state::refused(r, Refusal::RunOutside);
    };
    if !Budget::within(budget) {
        return state::refused(r, Refusal::RunOutside);
    }
    run_layer(r, end, budget)
}
