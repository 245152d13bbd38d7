// Writing a job: from a description, which has no bytes, to the bytes of a version 1 job.

#![tactic(auto)]

ghost use Rattle.std.specs.Prelude.{length, ◌≡◌};
ghost use Rattle.description.specs.Lent.{description_of};
ghost use Rattle.rules.specs.Job.{Description};
ghost use Rattle.writer.specs.RoundTrips.{RoundTrips};
ghost use Rattle.writer.specs.Writing.{writing, written_number, writing_number};

use job::header;
use rules::answers::Refusal;
use rules::job::Header;

pub mod bytes;

// Writes the job of a description at the beginning of a buffer, and gives its length: refused for the causes 3, 5 to 9 and 20, then 17, and the buffer is as
// it was; bytes past the job are as they were. The water is written as it is given, whatever the start. What is written is
// read again, and what was read is written again.
pub fn write_job<'a>(
    header: Header,
    void: &'a [u64; 64],
    stress: &'a [u64; 64],
    conductivity_void: &'a [u64; 64],
    conductivity: &'a [u64; 64],
    solids: &'a [u64; 128],
    water: &'a [u64; 128],
    table_time: &'a [u64; 64],
    table_load: &'a [u64; 64],
    out: &mut [u8],
) -> Result<usize, Refusal>
    requires water_len { length water.now ≡ 128 }
    ensures value { let d : Description = description_of header void.now stress.now conductivity_void.now conductivity.now solids.now water.now table_time.now table_load.now in result ≡ (writing d out.old).answer }
    ensures out_after { let d : Description = description_of header void.now stress.now conductivity_void.now conductivity.now solids.now water.now table_time.now table_load.now in out.new ≡ (writing d out.old).buffer }
    ensures result_value { let d : Description = description_of header void.now stress.now conductivity_void.now conductivity.now solids.now water.now table_time.now table_load.now in written_number result ≡ writing_number d out.old }
    ensures round_trips { let d : Description = description_of header void.now stress.now conductivity_void.now conductivity.now solids.now water.now table_time.now table_load.now in RoundTrips d out.old result out.new }
{
    let mut started = *water;
    let mut burden = [0; 128];
    acceptance::accept(
        header,
        void,
        stress,
        conductivity_void,
        conductivity,
        solids,
        &mut started,
        table_time,
        table_load,
        &mut burden,
    )?;
    let length = header::job_length(header);
    if out.len() < length {
        return Err(Refusal::ShortJobBuffer);
    }
    bytes::write_bytes(
        header,
        void,
        stress,
        conductivity_void,
        conductivity,
        solids,
        water,
        table_time,
        table_load,
        out,
    );
    Ok(length)
}
