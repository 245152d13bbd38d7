// Reads a description's words on standard input and writes its job, or the refusal.

#![tactic(auto)]

ghost use Rattle.std.specs.Prelude.{length, ◌≡◌};
ghost use Rattle.compose.specs.Composed.{job_most, composed};
ghost use Rattle.numbers.specs.Arrays.{overlaid, zeros};

use job::header::HEADER_LENGTH;
use std::io;

// How many words a description has.
const WORDS: usize = 652;

// The most bytes of a job.
const ROOM: usize = 5_168;

// Stores what is written for an input at the start of a buffer, and gives its length.
fn answer(input: &[u8], out: &mut [u8]) -> usize
    requires { out.old ≡ zeros job_most }
    ensures { (out.new ≡ overlaid (composed input.now) out.old) × (result ≡ length (composed input.now)) }
{
    let mut words = [0; WORDS];
    words::bytes::read_words(input, &mut words);
    let number = words::write_words(&words, out);
    if number < HEADER_LENGTH as u64 {
        return answers::refused_line(number as u32, out);
    }
    number as usize
}

fn main(rt: HostRuntime) -> io::Result<()> {
    let mut input = [0u8; 8192];
    let read = streams::read_full(&mut rt.stdin(), &mut input)?;
    let mut out = [0u8; ROOM];
    let written = answer(&input[..read], &mut out);
    rt.write_all(&out[..written])
}
