// The result's bytes.

#![tactic(auto)]

ghost use Rattle.std.specs.Prelude.{length, true, ◌≡◌, ◌≤◌};
ghost use Rattle.lent.specs.Burdens.{burdens_in};
ghost use Rattle.numbers.specs.Arrays.{overlaid};
ghost use Rattle.quantities.specs.Quantities.{element_limits};
ghost use Rattle.rules.specs.Record.{soil_of, layer_of, record_of, is_layer};
ghost use Rattle.rules.specs.Refusals.{refusal_number};
ghost use Rattle.rules.specs.Result.{result_bytes, result_size};
ghost use Rattle.rules.specs.declared.record.Record.{Record};

use record_parts::balance;
use rules::answers::{Ended, Refusal};
use rules::record::{CurveCounts, Frame, Skeleton};

// The number returned where the key is withheld for a cause.
pub fn refused(cause: Refusal) -> u32
    ensures { result ≡ refusal_number cause }
{
    answers::refusal_number(cause) as u32
}

// The length of a result of so many elements.
pub fn result_size(elements: usize) -> usize
    requires { elements ≤ element_limits.most }
    ensures { result ≡ result_size elements }
{
    56 + 40 * elements
}

// Writes the result of a layer that is lent by its parts with its burdens, where it has room.
pub fn write_lent<'a>(
    counts: CurveCounts,
    frame: Frame,
    ended: Ended,
    void: &'a [u64; 64],
    stress: &'a [u64; 64],
    conductivity_void: &'a [u64; 64],
    conductivity: &'a [u64; 64],
    solids: &'a [u64; 128],
    water: &'a [u64; 128],
    table_time: &'a [u64; 64],
    table_load: &'a [u64; 64],
    burden: &'a [u64; 128],
    out: &mut [u8],
)
    requires r_value { let r : Record = record_of (soil_of counts void.now stress.now conductivity_void.now conductivity.now) (layer_of frame ended.progress solids.now water.now table_time.now table_load.now) in is_layer r ≡ true }
    requires burden_value { (burden.now ≡ burdens_in frame solids.now) × (result_size frame.elements ≤ length out.old) }
    ensures { let r : Record = record_of (soil_of counts void.now stress.now conductivity_void.now conductivity.now) (layer_of frame ended.progress solids.now water.now table_time.now table_load.now) in out.new ≡ overlaid (result_bytes r ended.stop ended.steps) out.old }
{
    let elements = frame.elements;
    let points = counts.compressibility;
    let progress = ended.progress;
    let load = progress.load;
    let top_level = frame.top_level;
    let settlement = balance::settlement(
        frame.starting_water,
        balance::total_water(elements, water),
    );
    result_head::write_head(out, elements, ended, settlement);
    result_elements::write_elements(
        elements,
        load,
        top_level,
        burden,
        solids,
        water,
        Skeleton { points },
        void,
        stress,
        out,
    );
}
