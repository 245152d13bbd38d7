// A job's header: its mark, what it says, and the job's length by its counts.
ghost use Rattle.std.specs.Prelude.{length, true, ◌≡◌, ◌≤◌};
ghost use Rattle.rules.specs.Job.{described, header_sound, header_length, job_length, marked};

use rules::job::Header;

pub const HEADER_LENGTH: usize = 48;

// The length of each pair of 64-bit fields.
pub const PAIR_LENGTH: usize = 16;

// Whether a job begins with its mark.
pub fn marked(job: &[u8]) -> bool
    requires { header_length ≤ length job.now }
    ensures { result ≡ marked job.now }
{
    (job[0] == b'L') & (job[1] == b'S') & (job[2] == b'C')
}

// The numbers of a job's header.
pub fn read_header(job: &[u8]) -> Header
    requires { header_length ≤ length job.now }
    ensures { result ≡ (described job.now).header }
{
    Header {
        top: encoding::byte(job, 5) as u64,
        bottom: encoding::byte(job, 6) as u64,
        elements: encoding::byte(job, 7) as usize,
        compressibility_points: encoding::byte(job, 8) as usize,
        conductivity_points: encoding::byte(job, 9) as usize,
        table_points: encoding::byte(job, 10) as usize,
        start: encoding::byte(job, 11) as u64,
        gravity: encoding::field(job, 2, 12),
        top_level: encoding::field(job, 8, 16),
        bottom_level: encoding::field(job, 8, 24),
        end: encoding::field(job, 8, 32),
        budget: encoding::field(job, 8, 40),
    }
}

// The length that the four counts of a header ask for.
pub fn job_length(header: Header) -> usize
    requires { header_sound header ≡ true }
    ensures { result ≡ job_length header }
{
    HEADER_LENGTH
        + PAIR_LENGTH
            * (header.elements
                + header.compressibility_points
                + header.conductivity_points
                + header.table_points)
}
