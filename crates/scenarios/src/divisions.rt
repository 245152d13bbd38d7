// Lists of calls with divisions: flows with what the division left, in buffers that show which places are written.
ghost use Rattle.std.specs.Prelude.{eqb, length, ◌||◌, ◌≡◌, ◌-◌, ◌≤◌, IfOk};
ghost use Rattle.scenarios.specs.Divisions.{kept, entry_count, divided_number};
ghost use Rattle.transcript.specs.Input.{is_record};

use crate::print;
use rules::answers::Refusal;
use rules::record::Record;
use std::io;
use transcript::input;

// What a place of a buffer holds before it is written.
const FILL: i64 = -7_777_777_777_777_777_777;

// How many places of a buffer, from a place on, hold the fill.
fn kept(buffer: &[i64; 129], first: usize) -> u64
    ensures value { result ≡ kept (129 - first) first buffer.now }
    ensures upper_bound { result ≤ 129 }
{
    let mut count: u64 = 0;
    for i in first..129 {
        if buffer[i] == FILL {
            count += 1;
        }
    }
    count
}

// Writes the first entries of both buffers, each entry's flow and remainder.
fn write_entries(
    rt: &impl Print,
    count: usize,
    flows: &[i64; 129],
    remainders: &[i64; 129],
) -> io::Result<()>
    requires { count ≤ 129 }
{
    for i in 0..count {
        crate::write_number(rt, encoding::signed_field(flows[i]))?;
        crate::write_number(rt, encoding::signed_field(remainders[i]))?;
    }
    Ok(())
}

// How many entries a division has.
fn entry_count(divided: Result<usize, Refusal>) -> usize
    ensures { result ≡ entry_count divided }
{
    match divided {
        Ok(count) => count,
        Err(_) => 0,
    }
}

// The refusal number of a division, 0 where it is accepted.
fn refusal_number(divided: Result<usize, Refusal>) -> u64
    ensures { result ≡ divided_number divided }
{
    match divided {
        Ok(_) => 0,
        Err(cause) => answers::refusal_number(cause),
    }
}

// Makes the division of a step of t seconds on a record, and writes its answer: its numbers, the places that are as they were, and
// the entries.
fn divide(rt: &impl Print, record: Record, t: u64) -> io::Result<()> {
    let mut flows = [FILL; 129];
    let mut remainders = [FILL; 129];
    let divided = record_flows::divide(record, t, &mut flows, &mut remainders);
    let count = entry_count(divided);
    rt.write_all(b"division ")?;
    crate::write_number(rt, refusal_number(divided))?;
    crate::write_number(rt, count as u64)?;
    crate::write_number(rt, kept(&flows, count) + kept(&remainders, count))?;
    write_entries(rt, count, &flows, &remainders)?;
    rt.write_all(b"\n")
}

// Makes a call on a record, writes its answer, and gives the record after it. Its kind: 0 a load, 1 a step, 2 a division, any other
// a run.
fn make_call(rt: &impl Print, record: Record, kind: u64, a: u64, b: u64) -> io::Result<Record> {
    if kind == 2 {
        divide(rt, record, a)?;
        return Ok(record);
    }
    let answered = replay::make_call(record, kind, a, b);
    let answer = answered.answer;
    let after = answered.after;
    print::answer(
        rt,
        kind,
        answers::answer_number(answer),
        replay::words::answer_stop(answer),
        replay::words::answer_steps(answer),
    )?;
    Ok(after)
}

// Makes calls on a record one after the other, and prints its state before them and after each.
fn answer_calls(rt: &impl Print, first: Record, calls: &[u64]) -> io::Result<()>
    requires { length calls.now ≤ 96 }
{
    print::state(rt, first)?;
    let mut record = first;
    for call in calls.chunks_exact(3) {
        record = make_call(rt, record, call[0], call[1], call[2])?;
        print::state(rt, record)?;
    }
    Ok(())
}

// Answers a list from a job. The calls of a refused job are made on the record that the refusal gives.
fn answer_job(rt: &impl Print, job: &[u8], calls: &[u64]) -> io::Result<()>
    requires { length calls.now ≤ 96 }
{
    let opened = record_opening::open(job);
    let answer = opened.answer;
    let record = opened.after;
    print::opened(rt, answers::answer_number(answer))?;
    answer_calls(rt, record, calls)
}

// Answers a list; false where a body is no record.
pub fn answer_list(
    rt: &impl Print,
    number: u64,
    kind: u64,
    body: &[u8],
    calls: &[u64],
) -> io::Result<bool>
    requires { length calls.now ≤ 96 }
    ensures { IfOk result (λ answered. answered ≡ (eqb kind 5 || is_record body.now)) }
{
    print!(rt; "list {number}")?;
    if kind == 5 {
        answer_job(rt, body, calls)?;
        return Ok(true);
    }
    if input::is_record(body) {
        rt.write_all(b"\nrecord\n")?;
        let record = input::record(body);
        answer_calls(rt, record, calls)?;
        return Ok(true);
    }
    Ok(false)
}
