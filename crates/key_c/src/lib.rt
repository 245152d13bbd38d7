// The C functions of the key's archive. Each calls the library's function of its name and promises what that does.

#![tactic(auto)]

ghost use Rattle.std.specs.Prelude.{◌≡◌};
ghost use Rattle.key.specs.Readings.{job_readings};
ghost use Rattle.rules.specs.Key.{key};
ghost use Rattle.words.specs.Words.{written_words, WordsTrips};

use key::{job_readings, written_job};

// The key of a job: 0 and the result in the buffer, or the number of the cause and the buffer as it was.
#[unsafe(no_mangle)]
pub extern "C" fn consolidation_key(job: &[u8], res: &mut [u8]) -> u32
    ensures value { result ≡ (key job.now res.old).number }
    ensures res_after { res.new ≡ (key job.now res.old).buffer }
{
    key::consolidation_key(job, res)
}

// The job of a description: its length and the job at the beginning of the buffer, or the number of the cause, below every length,
// and the buffer as it was. What is written is read again, and what was read is written again.
#[unsafe(no_mangle)]
pub extern "C" fn consolidation_job(description: &[u64], job: &mut [u8]) -> u64
    ensures value { result ≡ (written_words description.now job.old).number }
    ensures job_after { job.new ≡ (written_words description.now job.old).buffer }
    ensures words_trips { WordsTrips description.now job.old result job.new }
{
    written_job::consolidation_job(description, job)
}

// The answers to readings of a job's layer: 0 and five words for each reading of three at the beginning of the buffer, or the number of
// the cause and the buffer as it was. The pore pressures are those of the job's key.
#[unsafe(no_mangle)]
pub extern "C" fn consolidation_readings(job: &[u8], readings: &[u64], answers: &mut [u64]) -> u32
    ensures value { result ≡ (job_readings job.now readings.now answers.old).number }
    ensures answers_after { answers.new ≡ (job_readings job.now readings.now answers.old).buffer }
{
    job_readings::consolidation_readings(job, readings, answers)
}
