// The job of a description, by the description's words.
ghost use Rattle.std.specs.Prelude.{◌≡◌};
ghost use Rattle.words.specs.Words.{written_words, WordsTrips};

// The job of a description: its length and the job at the beginning of the buffer, or the number of the cause, below every length,
// and the buffer as it was. What is written is read again, and what was read is written again.
pub fn consolidation_job(description: &[u64], job: &mut [u8]) -> u64
    ensures value { result ≡ (written_words description.now job.old).number }
    ensures job_after { job.new ≡ (written_words description.now job.old).buffer }
    ensures words_trips { WordsTrips description.now job.old result job.new }
{
    words::write_words(description, job)
}
