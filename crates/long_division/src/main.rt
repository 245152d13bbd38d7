// Reads a job and a step's seconds on standard input and writes the working of that step on the layer that the job's run leaves, or the
// refusal.

#![tactic(auto)]

ghost use Rattle.std.specs.Prelude.{length, ◌≡◌, ◌≤◌};
ghost use Rattle.long_division.specs.DivisionOutput.{working_most, worked_output, division_output};
ghost use Rattle.numbers.specs.Arrays.{overlaid};
ghost use Rattle.rules.specs.Program.{refused_line};
ghost use Rattle.rules.specs.Refusals.{refusal_number};

use rules::answers::{Answer, Refusal};
use rules::record::Record;
use std::io;
use words::bytes;

// The words of the longest working, and their bytes.
const WORDS: usize = 1_670;

const ROOM: usize = 13_360;

// Stores the line of a refusal at the start of a buffer, and gives its length.
fn refuse(cause: Refusal, out: &mut [u8]) -> usize
    requires { 16 ≤ length out.old }
    ensures { (out.new ≡ overlaid (refused_line (refusal_number cause)) out.old) × (result ≡ length (refused_line (refusal_number cause))) }
{
    answers::refused_line(answers::refusal_number(cause) as u32, out)
}

// Stores what is written for a step on a record, and gives its length.
fn answer_record(r: Record, t: u64, out: &mut [u8]) -> usize
    requires { working_most ≤ length out.old }
    ensures { (out.new ≡ overlaid (worked_output r t) out.old) × (result ≡ length (worked_output r t)) }
{
    let mut words = [0u64; WORDS];
    let worked = working::work_out(r, t, &mut words);
    match worked {
        Ok(count) => {
            bytes::put_words(&words[..count], out);
            8 * count
        }
        Err(cause) => refuse(cause, out),
    }
}

// The same for a step on the layer that a job's run leaves.
fn answer(job: &[u8], t: u64, out: &mut [u8]) -> usize
    requires { working_most ≤ length out.old }
    ensures { (out.new ≡ overlaid (division_output job.now t) out.old) × (result ≡ length (division_output job.now t)) }
{
    let opened = record_opening::open(job);
    let answer = opened.answer;
    let r = opened.after;
    match answer {
        Answer::Done => answer_record(division::run_job(job, r), t, out),
        Answer::Ran(_, _) => 0,
        Answer::Refused(cause) => refuse(cause, out),
    }
}

fn main(rt: HostRuntime) -> io::Result<()> {
    let mut input = rt.stdin();
    let mut head = [0u8; 8];
    streams::read_full(&mut input, &mut head)?;
    let length = bytes::job_length(&head);
    let mut job = [0u8; bytes::JOB_MOST];
    let job_read = streams::read_full(&mut input, &mut job[..length])?;
    let mut seconds = [0u8; 8];
    streams::read_full(&mut input, &mut seconds)?;
    let mut out = [0u8; ROOM];
    let written = answer(&job[..job_read], bytes::word_at(&seconds, 0), &mut out);
    rt.write_all(&out[..written])
}
