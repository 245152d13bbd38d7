// Answers lists of calls and readings, works jobs and writes those of descriptions, all from files, and writes every answer, state, result
// and job, for comparison with another program's.

#![tactic(auto)]

mod divisions;
mod print;

ghost use Rattle.std.specs.Prelude.{length, ◌≤◌, ◌*◌, ◌≡◌, IfOk, OnOk, OnErr};
ghost use Rattle.numbers.specs.Arrays.{filled};
ghost use Rattle.numbers.specs.Bytes.{column};
ghost use Rattle.transcript.specs.Input.{is_body};

use rules::record::Record;
use std::fs::File;
use std::io::Read;
use std::{env, io};
use transcript::input;

// The most bytes of a body, and of a result's buffer.
const MOST: usize = 8_192;

// Replays the calls of a list, one more each time, and prints what the last one answers and leaves: from the job, where that is
// accepted and opens to the record, otherwise on the record.
fn answer_calls(
    rt: &impl Print,
    accepted: bool,
    job: &[u8],
    first: Record,
    calls: &[u64],
) -> io::Result<()>
    requires { length calls.now ≤ 96 }
{
    print::state(rt, first)?;
    let mut words = [0u64; 96];
    let mut after = first;
    for i in 0..calls.len() / 3 {
        let end = 3 * i + 3;
        if accepted {
            let replayed = replay::replay(job, &calls[..end], &mut words[..end]);
            let last = replayed.after;
            after = last;
        } else {
            after = replay::replay_calls(first, &calls[..end], &mut words[..end]);
        }
        print::answer(
            rt,
            calls[end - 3],
            words[end - 3],
            words[end - 2],
            words[end - 1],
        )?;
        print::state(rt, after)?;
    }
    print::site(rt, after)
}

// Answers a list from a job. The calls of a refused job are made on the record that the refusal gives.
fn answer_job(rt: &impl Print, job: &[u8], calls: &[u64]) -> io::Result<()>
    requires { length calls.now ≤ 96 }
{
    let mut words = [0u64; 1];
    let opened = replay::replay(job, &calls[..0], &mut words[..0]);
    let answer = opened.answer;
    let record = opened.after;
    let refusal = answers::answer_number(answer);
    print::opened(rt, refusal)?;
    answer_calls(rt, refusal == 0, job, record, calls)
}

// Answers a list; false where a body is no record.
fn answer_list(
    rt: &impl Print,
    number: u64,
    kind: u64,
    body: &[u8],
    calls: &[u64],
) -> io::Result<bool>
    requires { length calls.now ≤ 96 }
    ensures { IfOk result (λ answered. answered ≡ is_body kind body.now) }
{
    print!(rt; "list {number}")?;
    if kind == 0 {
        answer_job(rt, body, calls)?;
        return Ok(true);
    }
    if input::is_record(body) {
        rt.write_all(b"\nrecord\n")?;
        let record = input::record(body);
        answer_calls(rt, false, body, record, calls)?;
        return Ok(true);
    }
    Ok(false)
}

// Reads so many calls or readings through a buffer of bytes, and stores their words at the start of another, which a failed read leaves
// as it was.
fn read_calls(
    file: &mut impl Read,
    count: usize,
    bytes: &mut [u8],
    words: &mut [u64],
) -> io::Result<()>
    requires { (24 * count ≤ length bytes.old) × (3 * count ≤ length words.old) }
    ensures ok { OnOk result (words.new ≡ filled words.old (3 * count) (column 8 0 bytes.new)) }
    ensures err { OnErr result (words.new ≡ words.old) }
{
    let size = 24 * count;
    streams::read_full(file, &mut bytes[..size])?;
    encoding::read_column(bytes, 8, 0, 3 * count, words);
    Ok(())
}

// Reads the calls of a list, and answers it; false where there are too many, or the body is no record.
fn read_list(
    rt: &impl Print,
    file: &mut impl Read,
    number: u64,
    kind: u64,
    body: &[u8],
    count: usize,
) -> io::Result<bool> {
    if count > 32 {
        return Ok(false);
    }
    let mut bytes = [0u8; 768];
    let mut words = [0u64; 96];
    read_calls(file, count, &mut bytes, &mut words)?;
    let end = 3 * count;
    let calls = &words[..end];
    match kind {
        5 | 6 => divisions::answer_list(rt, number, kind, body, calls),
        _ => answer_list(rt, number, kind, body, calls),
    }
}

// Works a job in a buffer of so many bytes, and writes the number and the whole buffer; false where it is too long.
fn answer_key(rt: &impl Print, job: &[u8], room: usize) -> io::Result<bool> {
    if room > MOST {
        return Ok(false);
    }
    let mut result = [165u8; MOST];
    let number = key::consolidation_key(job, &mut result[..room]);
    let answer = [(number % 256) as u8];
    rt.write_all(&answer)?;
    rt.write_all(&result[..room])?;
    Ok(true)
}

// Writes a number's eight bytes.
fn write_number(rt: &impl Print, number: u64) -> io::Result<()> {
    let mut bytes = [0u8; 8];
    encoding::put_word(&mut bytes, 0, number);
    rt.write_all(&bytes)
}

// Writes the job of a description's words in a buffer of so many bytes, and writes the number and the whole buffer; false where it is
// too long. The last word may lack bytes.
fn answer_description(rt: &impl Print, body: &[u8], room: usize) -> io::Result<bool>
    requires { length body.now ≤ 8_192 }
{
    if room > MOST {
        return Ok(false);
    }
    let mut words = [0u64; 1_024];
    let count = (body.len() + 7) / 8;
    words::bytes::read_words(body, &mut words[..count]);
    let mut job = [165u8; MOST];
    let number = key::written_job::consolidation_job(&words[..count], &mut job[..room]);
    write_number(rt, number)?;
    rt.write_all(&job[..room])?;
    Ok(true)
}

// Compares a reading of three words with a record, and writes the numbers of the answer.
fn answer_reading(
    rt: &impl Print,
    record: Record,
    element: u64,
    kind: u64,
    word: u64,
) -> io::Result<()> {
    let reading = field_data::reading_of(kind, word);
    let numbers = record_reading::numbers_of(record_reading::compare(record, element, reading));
    write_number(rt, numbers.refusal)?;
    write_number(rt, numbers.missing)?;
    write_number(rt, numbers.exact)?;
    write_number(rt, numbers.pore)?;
    write_number(rt, numbers.difference)
}

// Compares readings with a record, one after the other.
fn answer_readings(rt: &impl Print, record: Record, words: &[u64]) -> io::Result<()>
    requires { length words.now ≤ 192 }
{
    for reading in words.chunks_exact(3) {
        answer_reading(rt, record, reading[0], reading[1], reading[2])?;
    }
    Ok(())
}

// Reads the readings of a record, and answers them; false where there are too many, or the body is no record.
fn read_readings(
    rt: &impl Print,
    file: &mut impl Read,
    body: &[u8],
    count: usize,
) -> io::Result<bool> {
    if count > 64 {
        return Ok(false);
    }
    if !input::is_record(body) {
        return Ok(false);
    }
    let mut bytes = [0u8; 1_536];
    let mut words = [0u64; 192];
    read_calls(file, count, &mut bytes, &mut words)?;
    let end = 3 * count;
    answer_readings(rt, input::record(body), &words[..end])?;
    Ok(true)
}

// Answers a block whose body is read; false where it is not of the right form. Its kind: 0 a list on a job, 2 a job for the key, 3 a
// description for its job, 4 readings of a record, 5 a list with divisions on a job, 6 one on a record, any other a list on a record.
fn answer_block(
    rt: &impl Print,
    file: &mut impl Read,
    number: u64,
    kind: u64,
    body: &[u8],
    count: usize,
) -> io::Result<bool>
    requires { length body.now ≤ 8_192 }
{
    match kind {
        2 => answer_key(rt, body, count),
        3 => answer_description(rt, body, count),
        4 => read_readings(rt, file, body, count),
        _ => read_list(rt, file, number, kind, body, count),
    }
}

// Answers the next block of a file; false where it is not of the right form.
fn next_block(rt: &impl Print, file: &mut impl Read, number: u64) -> io::Result<bool> {
    let mut head = [0u8; 24];
    streams::read_full(file, &mut head)?;
    let kind = encoding::field(&head, 8, 0);
    let length = encoding::field(&head, 8, 8) as usize;
    let count = encoding::field(&head, 8, 16) as usize;
    if length > MOST {
        return Ok(false);
    }
    let mut body = [0u8; MOST];
    let read = streams::read_full(file, &mut body[..length])?;
    answer_block(rt, file, number, kind, &body[..read], count)
}

// Answers every block of a file.
fn answer_blocks(rt: &impl Print, file: &mut impl Read) -> io::Result<()> {
    let mut count = [0u8; 8];
    streams::read_full(file, &mut count)?;
    let blocks = encoding::field(&count, 8, 0);
    for number in 0..blocks {
        if !next_block(rt, file, number)? {
            return Ok(());
        }
    }
    Ok(())
}

// The system's words in the text of an error, without the error's number.
fn reason_of(text: &str) -> &str {
    match text.split_once(" (os error ") {
        Some((reason, _)) => reason,
        None => text,
    }
}

// Writes a line to standard error: a file's name, and why it cannot be opened.
fn tell_of(rt: &(impl Eprint + Alloc), path: &str, error: &io::Error) -> io::Result<()> {
    let text = error.to_string(rt.alloc())?;
    let reason = reason_of(text.as_str());
    eprintln!(rt; "{path}: {reason}")
}

// Answers a file, below a line with its name.
fn answer_file(rt: &HostRuntime, path: &str) -> io::Result<()> {
    match File::open(rt, path) {
        Ok(mut file) => {
            println!(rt; "{path}")?;
            answer_blocks(rt, &mut file)
        }
        Err(error) => tell_of(rt, path, &error),
    }
}

fn main(rt: HostRuntime) -> io::Result<()> {
    for path in env::args(&rt)?.skip(1) {
        answer_file(&rt, path.as_str())?;
    }
    Ok(())
}
