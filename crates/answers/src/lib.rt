// Answers, causes and stops as the paper's numbers, and the line that says a refusal.

#![tactic(auto)]

ghost use Rattle.std.specs.Prelude.{length, ◌≡◌, ◌≤◌, ◌<◌};
ghost use Rattle.numbers.specs.Arrays.{overlaid};
ghost use Rattle.rules.specs.Outcome.{answer_number};
ghost use Rattle.rules.specs.Program.{refused_line};
ghost use Rattle.rules.specs.Refusals.{refusal_number};
ghost use Rattle.rules.specs.Run.{stop_number};

use rules::answers::{Answer, Refusal, Stop};

// The paper's number of a cause.
#[tactic(auto, unfolding(rules::specs::Refusals::refusal_number))]
pub fn refusal_number(cause: Refusal) -> u64
    ensures { result ≡ refusal_number cause }
{
    match cause {
        Refusal::ShortOrUnmarked => 1,
        Refusal::OtherVersion => 2,
        Refusal::HeaderOutside => 3,
        Refusal::WrongLength => 4,
        Refusal::FieldOutside => 5,
        Refusal::CompressibilityCurve => 6,
        Refusal::ConductivityCurve => 7,
        Refusal::LoadTable => 8,
        Refusal::StartOffCurve => 9,
        Refusal::ShortBuffer => 10,
        Refusal::NoLayer => 11,
        Refusal::LoadOutside => 12,
        Refusal::StepOutside => 13,
        Refusal::StepTooLong => 14,
        Refusal::StepOffCurve => 15,
        Refusal::RunOutside => 16,
        Refusal::ShortJobBuffer => 17,
        Refusal::ReadingOutside => 18,
        Refusal::ElementOutside => 19,
        Refusal::StartNotSteady => 20,
    }
}

// The paper's number of a stop.
#[tactic(auto, unfolding(rules::specs::Run::stop_number))]
pub fn stop_number(stop: Stop) -> u64
    ensures { result ≡ stop_number stop }
{
    match stop {
        Stop::AtEnd => 0,
        Stop::BudgetUsed => 1,
        Stop::NoStep => 2,
        Stop::OffCurve => 3,
    }
}

// The number returned with an answer: 0, or the cause's.
#[tactic(auto, unfolding(rules::specs::Outcome::answer_number))]
pub fn answer_number(answer: Answer) -> u64
    ensures { result ≡ answer_number answer }
{
    match answer {
        Answer::Done => 0,
        Answer::Ran(_, _) => 0,
        Answer::Refused(cause) => refusal_number(cause),
    }
}

// Stores "refused", a number and a line's end at the start of a buffer, and gives their length.
pub fn refused_line(number: u32, out: &mut [u8]) -> usize
    requires { (number < 100) × (16 ≤ length out.old) }
    ensures { (out.new ≡ overlaid (refused_line number) out.old) × (result ≡ length (refused_line number)) }
{
    out[..8].copy_from_slice(b"refused ");
    if number < 10 {
        out[8] = 48 + number as u8;
        out[9] = b'\n';
        return 10;
    }
    out[8] = 48 + (number / 10) as u8;
    out[9] = 48 + (number % 10) as u8;
    out[10] = b'\n';
    11
}
