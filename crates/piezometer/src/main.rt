// Reads a job and readings on standard input and writes the answers to them, or the refusal.

#![tactic(auto)]

ghost use Rattle.std.specs.Prelude.{length, ◌≡◌, ◌*◌, ◌≤◌};
ghost use Rattle.key.specs.Readings.{job_readings};
ghost use Rattle.numbers.specs.Arrays.{overlaid};
ghost use Rattle.piezometer.specs.FieldOutput.{readings_most, answers_most, words_output, field_output};

use field_data::{ANSWER_WORDS, READING_WORDS};
use std::io;
use words::bytes;

// The bytes of a reading.
const READING_BYTES: usize = 24;

// The bytes and the words of 1,024 readings, and the words and the bytes of their answers.
const READINGS_MOST: usize = 24_576;

const WORDS: usize = 3_072;

const ANSWERS: usize = 5_120;

const ROOM: usize = 40_960;

// Stores what is written for a job and readings by their words at the start of a buffer, and gives its length.
fn answer_words(job: &[u8], readings: &[u64], answers: &mut [u64], out: &mut [u8]) -> usize
    requires { (16 ≤ length out.old) × (8 * length answers.old ≤ length out.old) }
    ensures out_after { (out.new ≡ overlaid (words_output job.now readings.now answers.old) out.old) × (result ≡ length (words_output job.now readings.now answers.old)) }
    ensures answers_after { answers.new ≡ (job_readings job.now readings.now answers.old).buffer }
{
    let number = key::job_readings::consolidation_readings(job, readings, answers);
    if number != 0 {
        return answers::refused_line(number, out);
    }
    bytes::put_words(answers, out);
    8 * answers.len()
}

// The same for readings by their bytes. Bytes of a last reading that lacks some are not looked at.
fn answer(job: &[u8], readings: &[u8], out: &mut [u8]) -> usize
    requires { (length readings.now ≤ readings_most) × (answers_most ≤ length out.old) }
    ensures { (out.new ≡ overlaid (field_output job.now readings.now) out.old) × (result ≡ length (field_output job.now readings.now)) }
{
    let count = readings.len() / READING_BYTES;
    let asked = READING_WORDS * count;
    let told = ANSWER_WORDS * count;
    let mut words = [0u64; WORDS];
    bytes::read_words(readings, &mut words[..asked]);
    let mut answers = [0u64; ANSWERS];
    answer_words(job, &words[..asked], &mut answers[..told], out)
}

fn main(rt: HostRuntime) -> io::Result<()> {
    let mut input = rt.stdin();
    let mut head = [0u8; 8];
    streams::read_full(&mut input, &mut head)?;
    let length = bytes::job_length(&head);
    let mut job = [0u8; bytes::JOB_MOST];
    let job_read = streams::read_full(&mut input, &mut job[..length])?;
    let mut readings = [0u8; READINGS_MOST];
    let read = streams::read_full(&mut input, &mut readings)?;
    let mut out = [0u8; ROOM];
    let written = answer(&job[..job_read], &readings[..read], &mut out);
    rt.write_all(&out[..written])
}
