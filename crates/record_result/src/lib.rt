// The result of a record.

#![tactic(auto)]

ghost use Rattle.std.specs.Prelude.{length, true, ◌≡◌, ◌≤◌};
ghost use Rattle.numbers.specs.Arrays.{overlaid};
ghost use Rattle.rules.specs.Record.{is_layer};
ghost use Rattle.rules.specs.Result.{result_bytes, result_size, result as result_of};

use rules::answers::{Ended, Refusal, Stop};
use rules::record::Record;

// Writes a layer's result where it has room.
pub fn write_layer(r: Record, stop: Stop, steps: u64, out: &mut [u8])
    requires r_value { is_layer r ≡ true }
    requires elements_in_bounds { result_size r.layer.frame.elements ≤ length out.old }
    ensures { out.new ≡ overlaid (result_bytes r stop steps) out.old }
{
    let frame = r.layer.frame;
    let progress = r.layer.progress;
    let mut burden = [0u64; 128];
    weights::burdens(frame.elements, frame.gravity, &r.layer.solids, &mut burden);
    let ended = Ended {
        stop,
        steps,
        progress,
    };
    result::write_lent(
        r.soil.counts,
        r.layer.frame,
        ended,
        &r.soil.compressibility_void,
        &r.soil.compressibility_stress,
        &r.soil.conductivity_void,
        &r.soil.conductivity,
        &r.layer.solids,
        &r.layer.water,
        &r.layer.table_time,
        &r.layer.table_load,
        &burden,
        out,
    );
}

// Writes any record's result to a buffer, or refuses.
pub fn write_result(r: Record, stop: Stop, steps: u64, out: &mut [u8]) -> u32
    ensures value { result ≡ (result_of r stop steps out.old).number }
    ensures out_after { out.new ≡ (result_of r stop steps out.old).buffer }
{
    if !layer_test::is_layer(r) {
        return result::refused(Refusal::NoLayer);
    }
    if out.len() < result::result_size(r.layer.frame.elements) {
        return result::refused(Refusal::ShortBuffer);
    }
    write_layer(r, stop, steps, out);
    0
}
