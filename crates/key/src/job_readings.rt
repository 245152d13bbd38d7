// Readings against the layer that a job's run leaves.
ghost use Rattle.std.specs.Prelude.{ltb, length, cond, ◌≡◌, ◌/◌};
ghost use Rattle.key.specs.Readings.{job_readings};
ghost use Rattle.rules.specs.Key.{key};
ghost use Rattle.rules.specs.Result.{result_most};

use field_data::{ANSWER_WORDS, READING_WORDS};

// The length of the longest result.
const RESULT_MOST: usize = 5_176;

// The room for a result where so many words have room for the answers to so many words of readings; otherwise none, so that the key is
// refused for want of it and takes no run.
pub fn result_room(answers: usize, readings: usize) -> usize
    ensures { result ≡ cond (ltb (answers / 5) (readings / 3)) 0 result_most }
{
    if answers / ANSWER_WORDS < readings / READING_WORDS {
        return 0;
    }
    RESULT_MOST
}

// Answers readings by the key of their job, which is given room for its result just where the answers have room for theirs.
pub fn answer_by_key(job: &[u8], res: &mut [u8], readings: &[u64], answers: &mut [u64]) -> u32
    requires { length res.old ≡ cond (ltb (length answers.old / 5) (length readings.now / 3)) 0 result_most }
    ensures value { result ≡ (job_readings job.now readings.now answers.old).number }
    ensures answers_after { answers.new ≡ (job_readings job.now readings.now answers.old).buffer }
    ensures res_after { res.new ≡ (key job.now res.old).buffer }
{
    let number = crate::consolidation_key(job, res);
    if number != 0 {
        return number;
    }
    field_data::answer_readings(res, readings, answers);
    0
}

// The answers to readings of a job's layer: 0 and five words for each reading of three at the beginning of the buffer, or the number of
// the cause and the buffer as it was. The pore pressures are those of the job's key.
pub fn consolidation_readings(job: &[u8], readings: &[u64], answers: &mut [u64]) -> u32
    ensures value { result ≡ (job_readings job.now readings.now answers.old).number }
    ensures answers_after { answers.new ≡ (job_readings job.now readings.now answers.old).buffer }
{
    let mut result = [0u8; RESULT_MOST];
    let room = result_room(answers.len(), readings.len());
    answer_by_key(job, &mut result[..room], readings, answers)
}
