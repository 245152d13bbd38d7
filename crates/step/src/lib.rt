// Step: one step of t seconds.

#![tactic(auto)]

ghost use Rattle.std.specs.Prelude.{true, ◌≡◌, ◌+◌};
ghost use Rattle.rules.specs.Calls.{called, called_numbers};
ghost use Rattle.rules.specs.Outcome.{answer_numbers};
ghost use Rattle.quantities.specs.Quantities.{within, step_limits, clock_limits};
ghost use Rattle.rules.specs.Record.{is_layer};
ghost use Rattle.rules.specs.declared.answers.Call.TheVariants.{Step};

use lent::state;
use quantities::{Clock, Quantity, Seconds};
use rules::answers::{Answer, Answered, Refusal};
use rules::record::Record;

// A step within its limits, on a layer.
pub fn step_layer(r: Record, t: u64) -> Answered
    requires r_value { is_layer r ≡ true }
    requires t_value { (within step_limits t ≡ true) × (within clock_limits (r.layer.progress.clock.0 + t) ≡ true) }
    ensures { result ≡ called r (Step t) }
{
    let mut water = r.layer.water;
    let stepped = lent_step::step_lent(
        r.soil.counts,
        r.layer.frame,
        r.layer.progress,
        &r.soil.compressibility_void,
        &r.soil.compressibility_stress,
        &r.soil.conductivity_void,
        &r.soil.conductivity,
        &r.layer.solids,
        &mut water,
        &r.layer.table_time,
        &r.layer.table_load,
        t,
    );
    match stepped {
        Err(cause) => state::refused(r, cause),
        Ok(progress) => Answered {
            answer: Answer::Done,
            after: state::with_parts(r, water, progress),
        },
    }
}

// A step of t seconds, on any record.
pub fn take_step(r: Record, t: u64) -> Answered
    ensures value { result ≡ called r (Step t) }
    ensures answer_value { answer_numbers result.answer ≡ called_numbers r (Step t) }
{
    if !layer_test::is_layer(r) {
        return state::refused(r, Refusal::NoLayer);
    }
    if !Seconds::within(t) {
        return state::refused(r, Refusal::StepOutside);
    }
    let clock = r.layer.progress.clock;
    match Clock::new(clock.0 + t) {
        None => state::refused(r, Refusal::StepOutside),
        Some(_) => step_layer(r, t),
    }
}
