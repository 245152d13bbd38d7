// From a description to an accepted layer, with no bytes: the causes 3, 5 to 9 and 20.

#![tactic(auto)]

ghost use Rattle.std.specs.Prelude.{pos, length, true, ◌≡◌};
ghost use Rattle.std.specs.Prelude.{None};
ghost use Rattle.acceptance.specs.Accepting.{accepted_burden};
ghost use Rattle.description.specs.Lent.{description_of};
ghost use Rattle.quantities.specs.Quantities.{head};
ghost use Rattle.rules.specs.Job.{Description, described_causes, header_sound};
ghost use Rattle.rules.specs.Opening.{accepted, acceptance_number, accepted_number, accepted_water};
ghost use Rattle.rules.specs.Refusals.{first_cause};

use description::causes;
use description::fields::Levels;
use record_parts::{balance, form};
use rules::answers::{Accepted, Refusal};
use rules::job::Header;
use rules::record::Skeleton;

pub mod record;
pub mod starts;

// From a description to the numbers of its layer: the causes 3, 5 to 9 and 20, in their order. An accepted one has the water of its
// start put in place of the water that is given, and its burdens worked out.
pub fn accept<'a>(
    header: Header,
    void: &'a [u64; 64],
    stress: &'a [u64; 64],
    conductivity_void: &'a [u64; 64],
    conductivity: &'a [u64; 64],
    solids: &'a [u64; 128],
    water: &mut [u64; 128],
    table_time: &'a [u64; 64],
    table_load: &'a [u64; 64],
    burden: &mut [u64; 128],
) -> Result<Accepted, Refusal>
    requires water_len { (length water.old ≡ 128) × (length burden.old ≡ 128) }
    ensures value { let d : Description = description_of header void.now stress.now conductivity_void.now conductivity.now solids.now water.old table_time.now table_load.now in result ≡ accepted d }
    ensures water_after { let d : Description = description_of header void.now stress.now conductivity_void.now conductivity.now solids.now water.old table_time.now table_load.now in water.new ≡ accepted_water d }
    ensures burden_after { let d : Description = description_of header void.now stress.now conductivity_void.now conductivity.now solids.now water.old table_time.now table_load.now in burden.new ≡ accepted_burden d burden.old }
    ensures result_value { let d : Description = description_of header void.now stress.now conductivity_void.now conductivity.now solids.now water.old table_time.now table_load.now in acceptance_number result ≡ accepted_number d }
{
    if !form::header_sound(header) {
        return Err(Refusal::HeaderOutside);
    }
    let levels = causes::described_cause(
        header,
        void,
        stress,
        conductivity_void,
        conductivity,
        solids,
        water,
        table_time,
        table_load,
    )?;
    accept_start(
        header,
        levels,
        void,
        stress,
        conductivity_void,
        conductivity,
        solids,
        water,
        table_time,
        table_load,
        burden,
    )
}

// From a description without the causes 3 and 5 to 8, with its levels: the causes of its start, 9 and then 20.
pub fn accept_start<'a>(
    header: Header,
    levels: Levels,
    void: &'a [u64; 64],
    stress: &'a [u64; 64],
    conductivity_void: &'a [u64; 64],
    conductivity: &'a [u64; 64],
    solids: &'a [u64; 128],
    water: &mut [u64; 128],
    table_time: &'a [u64; 64],
    table_load: &'a [u64; 64],
    burden: &mut [u64; 128],
) -> Result<Accepted, Refusal>
    requires header_value { let d : Description = description_of header void.now stress.now conductivity_void.now conductivity.now solids.now water.old table_time.now table_load.now in (header_sound header ≡ true) × (first_cause (described_causes d) ≡ None) }
    requires levels_value { (levels.top ≡ head (pos header.top_level)) × (levels.bottom ≡ head (pos header.bottom_level)) }
    requires water_len { (length water.old ≡ 128) × (length burden.old ≡ 128) }
    ensures value { let d : Description = description_of header void.now stress.now conductivity_void.now conductivity.now solids.now water.old table_time.now table_load.now in result ≡ accepted d }
    ensures water_after { let d : Description = description_of header void.now stress.now conductivity_void.now conductivity.now solids.now water.old table_time.now table_load.now in water.new ≡ accepted_water d }
    ensures burden_after { let d : Description = description_of header void.now stress.now conductivity_void.now conductivity.now solids.now water.old table_time.now table_load.now in burden.new ≡ accepted_burden d burden.old }
{
    let elements = header.elements;
    weights::burdens(elements, header.gravity, solids, burden);
    let points = header.compressibility_points;
    let load = table_load[0];
    if !starts::start_water(
        header.start,
        starts::rests_over(header),
        elements,
        load,
        burden,
        solids,
        Skeleton { points },
        void,
        stress,
        water,
    ) {
        return Err(Refusal::StartOffCurve);
    }
    let starting = balance::total_water(elements, water);
    let frame = record::frame(header, levels, starting);
    let progress = record::opening_progress(load);
    if !starts::start_steady(
        header,
        frame,
        progress,
        void,
        stress,
        conductivity_void,
        conductivity,
        burden,
        solids,
        water,
        table_time,
        table_load,
    ) {
        return Err(Refusal::StartNotSteady);
    }
    Ok(Accepted { frame, progress })
}
