// The causes 5 to 8, which are tested on what a job says.
ghost use Rattle.std.specs.Prelude.{true, ◌≡◌};
ghost use Rattle.description.specs.Causes.{described_answer};
ghost use Rattle.description.specs.Lent.{description_of};
ghost use Rattle.rules.specs.Job.{Description, header_sound};

use crate::fields;
use crate::fields::Levels;
use points::checks;
use rules::answers::Refusal;
use rules::job::Header;

// The first of these causes that holds of a description, or its levels.
pub fn described_cause<'a>(
    header: Header,
    void: &'a [u64; 64],
    stress: &'a [u64; 64],
    conductivity_void: &'a [u64; 64],
    conductivity: &'a [u64; 64],
    solids: &'a [u64; 128],
    water: &'a [u64; 128],
    table_time: &'a [u64; 64],
    table_load: &'a [u64; 64],
) -> Result<Levels, Refusal>
    requires header_value { header_sound header ≡ true }
    ensures { let d : Description = description_of header void.now stress.now conductivity_void.now conductivity.now solids.now water.now table_time.now table_load.now in result ≡ described_answer d }
{
    let compressibility_points = header.compressibility_points;
    let conductivity_points = header.conductivity_points;
    let Some(levels) = fields::check_fields(header, solids, water) else {
        return Err(Refusal::FieldOutside);
    };
    if !checks::compressibility_sound(compressibility_points, void, stress) {
        return Err(Refusal::CompressibilityCurve);
    }
    if !checks::conductivity_sound(
        conductivity_points,
        conductivity_void,
        conductivity,
        compressibility_points,
        void,
        stress,
    ) {
        return Err(Refusal::ConductivityCurve);
    }
    if !table::table_sound(header.table_points, table_time, table_load) {
        return Err(Refusal::LoadTable);
    }
    Ok(levels)
}
