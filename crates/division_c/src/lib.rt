// The C function of the division's archive. It calls the library's function of its name and promises what that does.

#![tactic(auto)]

ghost use Rattle.std.specs.Prelude.{◌≡◌};
ghost use Rattle.division.specs.JobFlows.{job_flows};

// The flows and remainders of a step of so many seconds on the layer that a job's run leaves: their number, and both at the beginning of
// the buffers; or less than 0 by the number of the cause, and the buffers as they were.
#[unsafe(no_mangle)]
pub extern "C" fn consolidation_flows(
    job: &[u8],
    seconds: u64,
    flows: &mut [i64],
    remainders: &mut [i64],
) -> i64
    ensures value { result ≡ (job_flows job.now seconds flows.old remainders.old).number }
    ensures flows_after { flows.new ≡ (job_flows job.now seconds flows.old remainders.old).flows }
    ensures remainders_after { remainders.new ≡ (job_flows job.now seconds flows.old remainders.old).remainders }
{
    division::consolidation_flows(job, seconds, flows, remainders)
}
