// Reading a layer: every element's excess pressure and resistance under a load. Nothing moves.
ghost use Rattle.std.specs.Prelude.{length, ◌≡◌, ◌≤◌};
ghost use Rattle.lent.specs.Burdens.{burdens_in};
ghost use Rattle.layer.specs.Held.{Held, held_of, excess_at, resistance_at, Stands};
ghost use Rattle.numbers.specs.Arrays.{filled};
ghost use Rattle.quantities.specs.Quantities.{gravity_limits, element_limits};
ghost use Rattle.rules.specs.Record.{soil_of};

use quantities::Pressure;
use rules::record::{CurveCounts, Frame};

// Puts excess pressures and resistances in the first places.
pub fn read_layer<'a>(
    counts: CurveCounts,
    frame: Frame,
    load: Pressure,
    void: &'a [u64; 64],
    stress: &'a [u64; 64],
    conductivity_void: &'a [u64; 64],
    conductivity: &'a [u64; 64],
    solids: &'a [u64; 128],
    water: &'a [u64; 128],
    excess: &mut [i64; 128],
    resistance: &mut [u64; 128],
)
    requires stands { let h : Held = held_of (soil_of counts void.now stress.now conductivity_void.now conductivity.now) frame.elements load.0 (burdens_in frame solids.now) solids.now water.now in Stands h }
    requires elements_le_most { frame.elements ≤ element_limits.most }
    requires least_le_gravity { (gravity_limits.least ≤ frame.gravity) × (frame.gravity ≤ gravity_limits.most) }
    requires excess_len { (length excess.old ≡ 128) × (length resistance.old ≡ 128) }
    ensures excess_after { let h : Held = held_of (soil_of counts void.now stress.now conductivity_void.now conductivity.now) frame.elements load.0 (burdens_in frame solids.now) solids.now water.now in excess.new ≡ filled excess.old frame.elements (excess_at h) }
    ensures resistance_after { let h : Held = held_of (soil_of counts void.now stress.now conductivity_void.now conductivity.now) frame.elements load.0 (burdens_in frame solids.now) solids.now water.now in resistance.new ≡ filled resistance.old frame.elements (resistance_at h) }
{
    let elements = frame.elements;
    let mut burden = [0u64; 128];
    weights::burdens(elements, frame.gravity, solids, &mut burden);
    let mut stress_segment = [0usize; 128];
    let mut conductivity_segment = [0usize; 128];
    layer::read_elements(
        elements,
        load,
        counts,
        void,
        stress,
        conductivity_void,
        conductivity,
        &burden,
        solids,
        water,
        &mut stress_segment,
        &mut conductivity_segment,
        excess,
        resistance,
    );
}
