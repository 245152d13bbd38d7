// The head of a result.

#![tactic(auto)]

ghost use Rattle.std.specs.Prelude.{length, pos, ◌≤ℤ◌, ◌≡◌, ◌≤◌};
ghost use Rattle.std.proofs.lemmas.List.Edits.{sets};
ghost use Rattle.numbers.specs.Integers.{up};
ghost use Rattle.quantities.specs.Quantities.{element_limits};
ghost use Rattle.rules.specs.Result.{before_clock, head_bytes};

use rules::answers::{Ended, Stop};

// The bytes of a result before its clock: its mark, its version, the stop and the count of elements.
pub fn write_start(out: &mut [u8], elements: usize, stop: Stop)
    requires { (8 ≤ length out.old) × (elements ≤ element_limits.most) }
    ensures { out.new ≡ sets out.old 0 (before_clock stop elements) }
{
    out[0] = b'L';
    out[1] = b'S';
    out[2] = b'R';
    out[3] = 1;
    out[4] = 0;
    out[5] = answers::stop_number(stop) as u8;
    out[6] = elements as u8;
    out[7] = 0;
}

// The fields of a result before its elements, for a load that is not negative.
pub fn write_head(out: &mut [u8], elements: usize, ended: Ended, settlement: i64)
    requires in_bounds { (56 ≤ length out.old) × (elements ≤ element_limits.most) }
    requires pos_bound { pos 0 ≤ℤ ended.progress.load.0 }
    ensures { out.new ≡ sets out.old 0 (head_bytes ended.stop elements ended.progress.clock.0 ended.steps (up ended.progress.load.0) ended.progress.top_outflow.0 ended.progress.bottom_outflow.0 settlement) }
{
    let stop = ended.stop;
    let progress = ended.progress;
    let load = progress.load;
    let clock = progress.clock;
    let top_outflow = progress.top_outflow.0;
    let bottom_outflow = progress.bottom_outflow.0;
    write_start(out, elements, stop);
    encoding::put_word(out, 8, clock.0);
    encoding::put_word(out, 16, ended.steps);
    encoding::put_word(out, 24, load.0 as u64);
    encoding::put_signed(out, 32, top_outflow);
    encoding::put_signed(out, 40, bottom_outflow);
    encoding::put_signed(out, 48, settlement);
}
