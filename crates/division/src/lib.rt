// Flows with what the division left, of the layer that a job's run leaves.

#![tactic(auto)]

ghost use Rattle.std.specs.Prelude.{length, true, ◌≡◌, ◌≤◌};
ghost use Rattle.division.specs.JobFlows.{job_run, minus_number, call_flows, run_to_flows, job_flows};
ghost use Rattle.record_flows.specs.Dividing.{entry_count};
ghost use Rattle.rules.specs.Record.{is_layer};

use rules::answers::{Answer, Refusal};
use rules::record::Record;
use words::bytes;

// Where a job has its end and its budget.
const END_AT: usize = 32;

const BUDGET_AT: usize = 40;

// A cause as C is told it: less than every number of entries.
pub fn minus_number(cause: Refusal) -> i64
    ensures { result ≡ minus_number cause }
{
    0 - answers::refusal_number(cause) as i64
}

// The record that a job's run leaves of the record that it opened.
pub fn run_job(job: &[u8], r: Record) -> Record
    ensures { result ≡ job_run job.now r }
{
    let end = bytes::word_at(job, END_AT);
    let budget = bytes::word_at(job, BUDGET_AT);
    let ran = run::take_run(r, end, budget);
    ran.after
}

// The call on any record, its answer as C is told it.
pub fn call_flows(r: Record, t: u64, flows: &mut [i64], remainders: &mut [i64]) -> i64
    requires { (is_layer r ≡ true → entry_count r ≤ length flows.old) × (is_layer r ≡ true → entry_count r ≤ length remainders.old) }
    ensures value { result ≡ (call_flows r t flows.old remainders.old).number }
    ensures flows_after { flows.new ≡ (call_flows r t flows.old remainders.old).flows }
    ensures remainders_after { remainders.new ≡ (call_flows r t flows.old remainders.old).remainders }
{
    let answer = record_flows::divide_into(r, t, flows, remainders);
    match answer {
        Ok(count) => count as i64,
        Err(cause) => minus_number(cause),
    }
}

// A layer that a job opened, run to the job's end; where a buffer has no room for the entries, there is no run.
pub fn run_to_flows(job: &[u8], r: Record, t: u64, flows: &mut [i64], remainders: &mut [i64]) -> i64
    requires { is_layer r ≡ true }
    ensures value { result ≡ (run_to_flows job.now r t flows.old remainders.old).number }
    ensures flows_after { flows.new ≡ (run_to_flows job.now r t flows.old remainders.old).flows }
    ensures remainders_after { remainders.new ≡ (run_to_flows job.now r t flows.old remainders.old).remainders }
{
    let frame = r.layer.frame;
    let top = frame.top;
    let bottom = frame.bottom;
    let count = open_faces::face_count(frame.elements, top, bottom);
    if flows.len() < count {
        return minus_number(Refusal::ShortBuffer);
    }
    if remainders.len() < count {
        return minus_number(Refusal::ShortBuffer);
    }
    call_flows(run_job(job, r), t, flows, remainders)
}

// The flows and remainders of a step of so many seconds on the layer that a job's run leaves: their number, and both at the beginning of
// the buffers; or less than 0 by the number of the cause, and the buffers as they were.
pub fn consolidation_flows(
    job: &[u8],
    seconds: u64,
    flows: &mut [i64],
    remainders: &mut [i64],
) -> i64
    ensures value { result ≡ (job_flows job.now seconds flows.old remainders.old).number }
    ensures flows_after { flows.new ≡ (job_flows job.now seconds flows.old remainders.old).flows }
    ensures remainders_after { remainders.new ≡ (job_flows job.now seconds flows.old remainders.old).remainders }
{
    let opened = record_opening::open(job);
    let answer = opened.answer;
    let r = opened.after;
    match answer {
        Answer::Done => run_to_flows(job, r, seconds, flows, remainders),
        Answer::Ran(_, _) => 0,
        Answer::Refused(cause) => minus_number(cause),
    }
}
