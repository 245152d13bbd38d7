// A replay: a job opened, and calls made one after the other on its record.

#![tactic(auto)]

ghost use Rattle.std.specs.Prelude.{length, ◌≡◌, ◌+◌, ◌*◌, ◌≤◌};
ghost use Rattle.std.proofs.lemmas.List.Edits.{sets};
ghost use Rattle.replay.specs.Claim.{Claim};
ghost use Rattle.replay.specs.Replaying.{replay_on, written_on, replaying};
ghost use Rattle.replay.specs.Words.{call_of, call_at, call_count, answer_words};
ghost use Rattle.rules.specs.Calls.{called};
ghost use Rattle.rules.specs.declared.answers.Answer.TheVariants.{Done};

use rules::answers::{Answer, Answered};
use rules::record::Record;

pub mod words;

// A call by its kind: 0 a load, 1 a step, any other a run to an end with a budget.
#[tactic(auto, unfolding(crate::specs::Words::call_of))]
pub fn make_call(layer: Record, kind: u64, a: u64, b: u64) -> Answered
    ensures { result ≡ called layer (call_of kind a b) }
{
    match kind {
        0 => load::set_load(layer, a),
        1 => step::take_step(layer, a),
        _ => run::take_run(layer, a, b),
    }
}

// How many calls so many words hold, and so much room takes the answers of.
fn call_count(words: usize, room: usize) -> usize
    ensures { result ≡ call_count words room }
{
    if words < room { words / 3 } else { room / 3 }
}

// Makes call i on a record, and writes its answer to its place.
#[tactic(auto, unfolding(crate::specs::Words::call_at))]
fn replay_call(layer: Record, i: usize, calls: &[u64], answers: &mut [u64]) -> Record
    requires { (3 * i + 3 ≤ length calls.now) × (3 * i + 3 ≤ length answers.old) }
    ensures value { result ≡ (called layer (call_at calls.now i)).after }
    ensures answers_after { answers.new ≡ sets answers.old (3 * i) (answer_words (called layer (call_at calls.now i)).answer) }
{
    let at = 3 * i;
    let answered = make_call(layer, calls[at], calls[at + 1], calls[at + 2]);
    let answer = answered.answer;
    let after = answered.after;
    words::write_answer(answer, at, answers);
    after
}

// Makes calls one after the other on any record, and writes every answer.
pub fn replay_calls(layer: Record, calls: &[u64], answers: &mut [u64]) -> Record
    ensures value { result ≡ (replay_on layer calls.now answers.old).after }
    ensures answers_after { answers.new ≡ written_on layer calls.now answers.old }
{
    let count = call_count(calls.len(), answers.len());
    let mut after = layer;
    for i in 0..count {
        after = replay_call(after, i, calls, answers);
    }
    after
}

// Opens a job, makes the calls on its record, writes every answer, and gives the last record.
// A refused job leaves the slice of answers as it is. Of an accepted one term 3 holds.
pub fn replay(job: &[u8], calls: &[u64], answers: &mut [u64]) -> Answered
    ensures value { result ≡ (replaying job.now calls.now answers.old).given }
    ensures answers_after { answers.new ≡ (replaying job.now calls.now answers.old).slice }
    ensures claim { result.answer ≡ Done → Claim job.now calls.now answers.old result.after answers.new }
{
    let opened = record_opening::open(job);
    let answer = opened.answer;
    let layer = opened.after;
    match answer {
        Answer::Done => Answered {
            answer: Answer::Done,
            after: replay_calls(layer, calls, answers),
        },
        Answer::Ran(_, _) => opened,
        Answer::Refused(_) => opened,
    }
}
