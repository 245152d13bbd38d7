// Whether what a record holds of a job is sound.

#![tactic(auto)]

ghost use Rattle.std.specs.Prelude.{pos, ◌&&◌, ◌≡◌, ◌≤◌};
ghost use Rattle.laws.specs.Amid.{Between};
ghost use Rattle.quantities.specs.Quantities.{level_limits, curve_limits};
ghost use Rattle.rules.specs.Curve.{points, compressibility_sound, conductivity_sound};
ghost use Rattle.rules.specs.Layer.{top_pressure, bottom_pressure};
ghost use Rattle.rules.specs.Record.{form_sound, face_number, face_holds, site_sound};

use points::checks;
use quantities::Pressure;
use record_parts::{faces, form, sizes};
use rules::record::{CurveCounts, Frame, Record};

// Cause 3, of a record's numbers.
pub fn numbers_sound(counts: CurveCounts, frame: Frame) -> bool
    ensures { result ≡ form_sound (face_number frame.top) (face_number frame.bottom) frame.elements counts.compressibility counts.conductivity frame.table_points 0 frame.gravity }
{
    let top = frame.top;
    let bottom = frame.bottom;
    form::form_sound(
        faces::face_number(top),
        faces::face_number(bottom),
        frame.elements,
        counts.compressibility,
        counts.conductivity,
        frame.table_points,
        0,
        frame.gravity,
    )
}

// The causes 6 and 7, of a soil's two curves.
pub fn curves_sound<'a>(
    counts: CurveCounts,
    void: &'a [u64; 64],
    stress: &'a [u64; 64],
    conductivity_void: &'a [u64; 64],
    conductivity: &'a [u64; 64],
) -> bool
    requires compressibility_le_most { counts.compressibility ≤ curve_limits.most }
    requires least_le_conductivity { (curve_limits.least ≤ counts.conductivity) × (counts.conductivity ≤ curve_limits.most) }
    ensures { result ≡ (compressibility_sound (points counts.compressibility void.now stress.now) && conductivity_sound (points counts.conductivity conductivity_void.now conductivity.now) (points counts.compressibility void.now stress.now)) }
{
    let compressibility_points = counts.compressibility;
    let conductivity_points = counts.conductivity;
    checks::compressibility_sound(compressibility_points, void, stress)
        && checks::conductivity_sound(
            conductivity_points,
            conductivity_void,
            conductivity,
            compressibility_points,
            void,
            stress,
        )
}

// Whether the faces hold 0 and P.
pub fn faces_sound(frame: Frame) -> bool
    requires { Between (pos 0) (pos level_limits.most) frame.top_level.0 × Between (pos 0) (pos level_limits.most) frame.bottom_level.0 }
    ensures { result ≡ (face_holds frame.top top_pressure && face_holds frame.bottom (bottom_pressure frame.top_level.0 frame.bottom_level.0)) }
{
    let top = frame.top;
    let bottom = frame.bottom;
    let top_level = frame.top_level;
    let bottom_level = frame.bottom_level;
    let held = faces::bottom_pressure(top_level, bottom_level);
    faces::face_holds(top, Pressure(0)) & faces::face_holds(bottom, held)
}

// Whether what a record holds of a job meets the causes 3 and 5 to 8, and its faces hold 0 and P.
pub fn site_sound(r: Record) -> bool
    ensures { result ≡ site_sound r }
{
    let frame = r.layer.frame;
    let counts = r.soil.counts;
    let elements = frame.elements;
    let bottom = frame.bottom;
    let top_level = frame.top_level;
    let bottom_level = frame.bottom_level;
    if !numbers_sound(counts, frame) {
        return false;
    }
    if !sizes::sizes_sound(
        elements,
        top_level,
        bottom_level,
        bottom,
        &r.layer.solids,
        &r.layer.water,
    ) {
        return false;
    }
    if !curves_sound(
        counts,
        &r.soil.compressibility_void,
        &r.soil.compressibility_stress,
        &r.soil.conductivity_void,
        &r.soil.conductivity,
    ) {
        return false;
    }
    if !table::table_sound(frame.table_points, &r.layer.table_time, &r.layer.table_load) {
        return false;
    }
    faces_sound(frame)
}
