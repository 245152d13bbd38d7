// One element as it stands: what its flows are worked out from.
ghost use Rattle.std.specs.Prelude.{◌≡◌};
ghost use Rattle.layer.specs.Soil.{SoilSound, OnSoil};
ghost use Rattle.rules.specs.Curve.{points};
ghost use Rattle.rules.specs.Layer.{skeleton_of};
ghost use Rattle.steady_test.specs.Flows.{standing_of};

use curves::reading;
use quantities::Pressure;
use rules::record::Skeleton;

// p in millipascals, and r.
#[derive(Clone, Copy)]
pub struct Standing {
    pub excess: i64,
    pub resistance: u64,
}

// Reads one element; both curves are searched from their first segment.
pub fn read<'a>(
    load: Pressure,
    burden: u64,
    solids: u64,
    water: u64,
    skeleton: Skeleton,
    void: &'a [u64; 64],
    stress: &'a [u64; 64],
    conductivity_points: usize,
    conductivity_void: &'a [u64; 64],
    conductivity: &'a [u64; 64],
) -> Standing
    requires soil_sound { SoilSound skeleton.points void.now stress.now conductivity_points conductivity_void.now conductivity.now }
    requires on_soil { OnSoil skeleton.points void.now stress.now load.0 burden solids water }
    ensures { result ≡ standing_of (skeleton_of (points skeleton.points void.now stress.now)) (points conductivity_points conductivity_void.now conductivity.now) load.0 burden solids water }
{
    let found = element::effective_stress(solids, water, skeleton, void, stress, 0);
    let ratio = element::void_ratio(solids, water);
    let passed = reading::read(
        conductivity_points,
        conductivity_void,
        conductivity,
        ratio,
        0,
    );
    let stress_value = found.value;
    let conductivity_value = passed.value;
    let pressure = element::excess_pressure(load, burden, reading::value_of(stress_value));
    Standing {
        excess: pressure.0,
        resistance: element::resistance(solids, water, reading::value_of(conductivity_value)),
    }
}
