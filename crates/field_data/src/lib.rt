// Field data: readings by their words, three each, and their answers by a layer's result, five words each.

#![tactic(auto)]

ghost use Rattle.std.specs.Prelude.{length, ◌≡◌, ◌+◌, ◌*◌, ◌/◌, ◌≤◌, ◌<◌};
ghost use Rattle.std.proofs.lemmas.List.Edits.{sets};
ghost use Rattle.field_data.specs.Words.{reading_of, numbers_words, elements_in, pore_in, Told, compared_in, answer_in, answers_in};
ghost use Rattle.numbers.specs.Arrays.{overlaid};
ghost use Rattle.quantities.specs.Quantities.{pressure};

use quantities::Pressure;
use quantities::quantity::Limits;
use readings::Reading;
use record_reading::{Compared, Numbers};
use rules::answers::Refusal;

// The words of a reading, and those of an answer.
pub const READING_WORDS: usize = 3;

pub const ANSWER_WORDS: usize = 5;

// A reading by its kind: 1 a pressure, 2 a column, any other missing; its float is in the lower 32 bits of a word.
#[tactic(auto, unfolding(crate::specs::Words::reading_of))]
pub fn reading_of(kind: u64, word: u64) -> Reading
    ensures { result ≡ reading_of kind word }
{
    let bits = (word % 4_294_967_296) as u32;
    match kind {
        1 => Reading::Pressure(floats::of_bits(bits)),
        2 => Reading::Column(floats::of_bits(bits)),
        _ => Reading::Missing,
    }
}

// Stores an answer's words from a place on.
pub fn put_numbers(numbers: Numbers, at: usize, answers: &mut [u64])
    requires { at + 5 ≤ length answers.old }
    ensures { answers.new ≡ sets answers.old at (numbers_words numbers) }
{
    answers[at] = numbers.refusal;
    answers[at + 1] = numbers.missing;
    answers[at + 2] = numbers.exact;
    answers[at + 3] = numbers.pore;
    answers[at + 4] = numbers.difference;
}

// The pore pressure that a result has of an element, counted from 0.
pub fn pore_in(res: &[u8], index: usize) -> Pressure
    requires { Told res.now × (index < elements_in res.now) }
    ensures { result ≡ pressure (pore_in res.now index) }
{
    let at = 56 + (40 * index + 32);
    Pressure(encoding::signed_number(encoding::field(res, 8, at)))
}

// A reading of an element of the layer that a result is of.
#[tactic(auto, using(crate::proofs::WordLaws::numbered, readings::proofs::Ranges::reading_within))]
pub fn compare_in(res: &[u8], element: u64, reading: Reading) -> Result<Compared, Refusal>
    requires { Told res.now }
    ensures { result ≡ compared_in res.now element reading }
{
    let elements = encoding::byte(res, 6);
    let limits = Limits {
        least: 1,
        most: elements as u64,
    };
    if !limits.contains(element) {
        return Err(Refusal::ElementOutside);
    }
    let pore = pore_in(res, element as usize - 1);
    record_reading::less(pore, readings::convert(reading))
}

// Answers reading i by a result, in its place.
pub fn answer_reading(res: &[u8], i: usize, readings: &[u64], answers: &mut [u64])
    requires told { Told res.now }
    requires i_in_bounds { (3 * i + 3 ≤ length readings.now) × (5 * i + 5 ≤ length answers.old) }
    ensures { answers.new ≡ sets answers.old (5 * i) (answer_in res.now readings.now i) }
{
    let at = READING_WORDS * i;
    let reading = reading_of(readings[at + 1], readings[at + 2]);
    let compared = compare_in(res, readings[at], reading);
    put_numbers(
        record_reading::numbers_of(compared),
        ANSWER_WORDS * i,
        answers,
    );
}

// Answers all readings by a result, one after the other. Words of a last reading that lacks some are not looked at.
pub fn answer_readings(res: &[u8], readings: &[u64], answers: &mut [u64])
    requires told { Told res.now }
    requires readings_in_bounds { 5 * (length readings.now / 3) ≤ length answers.old }
    ensures { answers.new ≡ overlaid (answers_in res.now readings.now) answers.old }
{
    let count = readings.len() / READING_WORDS;
    for i in 0..count {
        answer_reading(res, i, readings, answers);
    }
}
