// Load: sets a load until a load or a run sets another.

#![tactic(auto)]

ghost use Rattle.std.specs.Prelude.{◌≡◌};
ghost use Rattle.rules.specs.Calls.{called, called_numbers};
ghost use Rattle.rules.specs.Outcome.{answer_numbers};
ghost use Rattle.rules.specs.declared.answers.Call.TheVariants.{Load};

use lent::state;
use quantities::Pressure;
use rules::answers::{Answer, Answered, Refusal};
use rules::record::Record;

// A load, on any record.
pub fn set_load(r: Record, load: u64) -> Answered
    ensures value { result ≡ called r (Load load) }
    ensures answer_value { answer_numbers result.answer ≡ called_numbers r (Load load) }
{
    if !layer_test::is_layer(r) {
        return state::refused(r, Refusal::NoLayer);
    }
    let layer = r.layer;
    let water = layer.water;
    let progress = layer.progress;
    match Pressure::new(load) {
        None => state::refused(r, Refusal::LoadOutside),
        Some(pressure) => Answered {
            answer: Answer::Done,
            after: state::with_parts(r, water, state::loaded(progress, pressure)),
        },
    }
}
