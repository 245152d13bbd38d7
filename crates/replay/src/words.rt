// An answer's three words: its refusal number, its stop, its number of steps; each 0 where there is none.
ghost use Rattle.std.specs.Prelude.{length, ◌≡◌, ◌+◌, ◌≤◌};
ghost use Rattle.std.proofs.lemmas.List.Edits.{sets};
ghost use Rattle.replay.specs.Words.{answer_words};
ghost use Rattle.rules.specs.Outcome.{answer_numbers};

use rules::answers::Answer;

#[tactic(auto, unfolding(rules::specs::Outcome::answer_numbers))]
pub fn answer_stop(answer: Answer) -> u64
    ensures { result ≡ (answer_numbers answer).stop }
{
    match answer {
        Answer::Done => 0,
        Answer::Ran(stop, _) => answers::stop_number(stop),
        Answer::Refused(_) => 0,
    }
}

#[tactic(auto, unfolding(rules::specs::Outcome::answer_numbers))]
pub fn answer_steps(answer: Answer) -> u64
    ensures { result ≡ (answer_numbers answer).steps }
{
    match answer {
        Answer::Done => 0,
        Answer::Ran(_, steps) => steps,
        Answer::Refused(_) => 0,
    }
}

// Writes an answer's words from a place on.
#[tactic(auto, unfolding(rules::specs::Outcome::answer_number))]
pub fn write_answer(answer: Answer, at: usize, answers: &mut [u64])
    requires { at + 3 ≤ length answers.old }
    ensures { answers.new ≡ sets answers.old at (answer_words answer) }
{
    answers[at] = answers::answer_number(answer);
    answers[at + 1] = answer_stop(answer);
    answers[at + 2] = answer_steps(answer);
}
