// Reads a job on standard input and writes its key, or the refusal.

#![tactic(auto)]

ghost use Rattle.std.specs.Prelude.{length, ◌≡◌, ◌≤◌};
ghost use Rattle.numbers.specs.Arrays.{overlaid, zeros};
ghost use Rattle.rules.specs.Program.{input_most, program_output};
ghost use Rattle.rules.specs.Result.{result_most};

use std::io;

// The most bytes of a result.
const ROOM: usize = 5_176;

// Stores what is written for a job at the start of a buffer, and gives its length.
fn answer(job: &[u8], out: &mut [u8]) -> usize
    requires { (length job.now ≤ input_most) × (out.old ≡ zeros result_most) }
    ensures { (out.new ≡ overlaid (program_output job.now) out.old) × (result ≡ length (program_output job.now)) }
{
    let number = key::consolidation_key(job, out);
    if number != 0 {
        return answers::refused_line(number, out);
    }
    result::result_size(encoding::byte(job, 7) as usize)
}

fn main(rt: HostRuntime) -> io::Result<()> {
    let mut input = [0u8; 8192];
    let read = streams::read_full(&mut rt.stdin(), &mut input)?;
    let mut out = [0u8; ROOM];
    let written = answer(&input[..read], &mut out);
    rt.write_all(&out[..written])
}
