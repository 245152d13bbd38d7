// What a step reads of an element, and of all elements.

#![tactic(auto)]

ghost use Rattle.std.specs.Prelude.{length, ◌≡◌, ◌+◌, ◌≤◌, ◌<◌};
ghost use Rattle.layer.specs.Held.{Held, held_of, excess_at, resistance_at, Stands};
ghost use Rattle.layer.specs.Segments.{Segments};
ghost use Rattle.layer.specs.Soil.{SoilSound, OnSoil};
ghost use Rattle.numbers.specs.Arrays.{filled};
ghost use Rattle.rules.specs.Curve.{points};
ghost use Rattle.rules.specs.Layer.{skeleton_of, excess_pressure, resistance};
ghost use Rattle.quantities.specs.Quantities.{element_limits, pressure};
ghost use Rattle.rules.specs.Record.{soil_of};

use curves::reading;
use quantities::Pressure;
use rules::record::{CurveCounts, Skeleton};

// An element as read, with the segments of both curves where it was found.
#[derive(Clone, Copy)]
pub struct Read {
    pub excess: Pressure,
    pub resistance: u64,
    pub stress_segment: usize,
    pub conductivity_segment: usize,
}

// Reads one element, from the segments where it was found last.
pub fn read_element<'a>(
    load: Pressure,
    burden: u64,
    solids: u64,
    water: u64,
    skeleton: Skeleton,
    void: &'a [u64; 64],
    stress: &'a [u64; 64],
    conductivity_points: usize,
    conductivity_void: &'a [u64; 64],
    conductivity: &'a [u64; 64],
    stress_hint: usize,
    conductivity_hint: usize,
) -> Read
    requires soil_sound { SoilSound skeleton.points void.now stress.now conductivity_points conductivity_void.now conductivity.now }
    requires on_soil { OnSoil skeleton.points void.now stress.now load.0 burden solids water }
    ensures excess_value { (result.excess ≡ pressure (excess_pressure (skeleton_of (points skeleton.points void.now stress.now)) load.0 burden solids water)) × (result.resistance ≡ resistance (points conductivity_points conductivity_void.now conductivity.now) solids water) }
    ensures stress_segment_bound { (result.stress_segment + 1 < skeleton.points) × (result.conductivity_segment + 1 < conductivity_points) }
{
    let found = element::effective_stress(solids, water, skeleton, void, stress, stress_hint);
    let ratio = element::void_ratio(solids, water);
    let passed = reading::read(
        conductivity_points,
        conductivity_void,
        conductivity,
        ratio,
        conductivity_hint,
    );
    let stress_value = found.value;
    let conductivity_value = passed.value;
    Read {
        excess: element::excess_pressure(load, burden, reading::value_of(stress_value)),
        resistance: element::resistance(solids, water, reading::value_of(conductivity_value)),
        stress_segment: found.segment,
        conductivity_segment: passed.segment,
    }
}

// Reads every element: excess pressures and resistances in the first places, the segments beside them.
pub fn read_elements<'a>(
    elements: usize,
    load: Pressure,
    counts: CurveCounts,
    void: &'a [u64; 64],
    stress: &'a [u64; 64],
    conductivity_void: &'a [u64; 64],
    conductivity: &'a [u64; 64],
    burden: &'a [u64; 128],
    solids: &'a [u64; 128],
    water: &'a [u64; 128],
    stress_segment: &mut [usize; 128],
    conductivity_segment: &mut [usize; 128],
    excess: &mut [i64; 128],
    resistance: &mut [u64; 128],
)
    requires elements_le_most { elements ≤ element_limits.most }
    requires stands { let h : Held = held_of (soil_of counts void.now stress.now conductivity_void.now conductivity.now) elements load.0 burden.now solids.now water.now in Stands h }
    requires excess_len { (length excess.old ≡ 128) × (length resistance.old ≡ 128) × (length stress_segment.old ≡ 128) × (length conductivity_segment.old ≡ 128) }
    ensures excess_after { let h : Held = held_of (soil_of counts void.now stress.now conductivity_void.now conductivity.now) elements load.0 burden.now solids.now water.now in excess.new ≡ filled excess.old elements (excess_at h) }
    ensures resistance_after { let h : Held = held_of (soil_of counts void.now stress.now conductivity_void.now conductivity.now) elements load.0 burden.now solids.now water.now in resistance.new ≡ filled resistance.old elements (resistance_at h) }
    ensures segments { Segments elements counts.compressibility stress_segment.old stress_segment.new }
    ensures segments_2 { Segments elements counts.conductivity conductivity_segment.old conductivity_segment.new }
{
    let points = counts.compressibility;
    let conductivity_points = counts.conductivity;
    for j in 0..elements {
        let one = read_element(
            load,
            burden[j],
            solids[j],
            water[j],
            Skeleton { points },
            void,
            stress,
            conductivity_points,
            conductivity_void,
            conductivity,
            stress_segment[j],
            conductivity_segment[j],
        );
        let pressure = one.excess.0;
        excess[j] = pressure;
        resistance[j] = one.resistance;
        stress_segment[j] = one.stress_segment;
        conductivity_segment[j] = one.conductivity_segment;
    }
}
