// The causes 1 to 4, which are tested before a job is read.
ghost use Rattle.std.specs.Prelude.{ltb, eqb, length, true, not, ◌||◌, ◌≡◌, ◌≤◌};
ghost use Rattle.job.specs.Framing.{framing};
ghost use Rattle.numbers.specs.Bytes.{field};
ghost use Rattle.rules.specs.Job.{header_sound, header_length, job_length, marked};

use crate::header;
use crate::header::HEADER_LENGTH;
use record_parts::form;
use rules::answers::Refusal;
use rules::job::Header;

// Cause 1.
pub fn short_or_unmarked(job: &[u8]) -> bool
    ensures { result ≡ (ltb (length job.now) header_length || not (marked job.now)) }
{
    job.len() < HEADER_LENGTH || !header::marked(job)
}

// Cause 2.
pub fn other_version(job: &[u8]) -> bool
    requires { header_length ≤ length job.now }
    ensures { result ≡ not (eqb (field 2 3 job.now) 1) }
{
    encoding::field(job, 2, 3) != 1
}

// Cause 3.
pub fn header_outside(job: &[u8], header: Header) -> bool
    requires { header_length ≤ length job.now }
    ensures { result ≡ (not (header_sound header) || not (eqb (field 2 14 job.now) 0)) }
{
    !form::header_sound(header) || encoding::field(job, 2, 14) != 0
}

// Cause 4.
pub fn wrong_length(job: &[u8], header: Header) -> bool
    requires { header_sound header ≡ true }
    ensures { result ≡ not (eqb (length job.now) (job_length header)) }
{
    job.len() != header::job_length(header)
}

// The first of these causes that holds, or the header of the job.
pub fn frame(job: &[u8]) -> Result<Header, Refusal>
    ensures { result ≡ framing job.now }
{
    if short_or_unmarked(job) {
        return Err(Refusal::ShortOrUnmarked);
    }
    if other_version(job) {
        return Err(Refusal::OtherVersion);
    }
    let header = header::read_header(job);
    if header_outside(job, header) {
        return Err(Refusal::HeaderOutside);
    }
    if wrong_length(job, header) {
        return Err(Refusal::WrongLength);
    }
    Ok(header)
}
