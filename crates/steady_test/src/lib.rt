// Whether a layer that is lent by its parts is steady.

#![tactic(auto)]

ghost use Rattle.std.specs.Prelude.{get_or, true, ◌≡◌, ℕ, ◌<◌};
ghost use Rattle.rules.specs.Record.{soil_of, layer_of, record_of, record_site, record_state, is_layer};
ghost use Rattle.rules.specs.Steady.{steady};
ghost use Rattle.rules.specs.declared.record.Record.{Record};
ghost use Rattle.weights.specs.Weights.{burden_at};

use rules::record::{CurveCounts, Frame, Progress};

pub mod extremes;
pub mod standing;

// Whether the flows up through any two faces differ by at most 1 nm: whether the least and the greatest do. Nothing moves.
pub fn is_steady<'a>(
    counts: CurveCounts,
    frame: Frame,
    progress: Progress,
    void: &'a [u64; 64],
    stress: &'a [u64; 64],
    conductivity_void: &'a [u64; 64],
    conductivity: &'a [u64; 64],
    burden: &'a [u64; 128],
    solids: &'a [u64; 128],
    water: &'a [u64; 128],
    table_time: &'a [u64; 64],
    table_load: &'a [u64; 64],
) -> bool
    requires r_value { let r : Record = record_of (soil_of counts void.now stress.now conductivity_void.now conductivity.now) (layer_of frame progress solids.now water.now table_time.now table_load.now) in is_layer r ≡ true }
    requires by_index { (j : ℕ) → j < frame.elements → get_or burden.now j 0 ≡ burden_at frame.gravity frame.elements solids.now j }
    ensures { let r : Record = record_of (soil_of counts void.now stress.now conductivity_void.now conductivity.now) (layer_of frame progress solids.now water.now table_time.now table_load.now) in result ≡ steady (record_site r) (record_state r) }
{
    let top = frame.top;
    let bottom = frame.bottom;
    let load = progress.load;
    let range = extremes::of_flows(
        frame.elements,
        top,
        bottom,
        load,
        counts,
        void,
        stress,
        conductivity_void,
        conductivity,
        burden,
        solids,
        water,
    );
    range.greatest - range.least <= 1
}
