// The numbers of an accepted layer.
ghost use Rattle.std.specs.Prelude.{pos, ◌≡◌, ◌≤◌};
ghost use Rattle.acceptance.specs.Accepting.{progress_at};
ghost use Rattle.rules.specs.Job.{counts_of, frame_of, numbered_face};
ghost use Rattle.quantities.specs.Quantities.{level_limits, stress_limits, head};

use description::fields::Levels;
use quantities::{Clock, Face, Outflow, Pressure};
use record_parts::faces;
use rules::job::Header;
use rules::record::{CurveCounts, Frame, Progress};

// The face that a number says.
pub fn numbered_face(number: u64, held: Pressure) -> Face
    ensures { result ≡ numbered_face number held }
{
    if number == 0 {
        return Face::Closed;
    }
    Face::Drained(held)
}

// The numbers of a header's layer that no call changes, with its levels and its starting water.
pub fn frame(header: Header, levels: Levels, starting_water: u64) -> Frame
    requires levels_value { (levels.top ≡ head (pos header.top_level)) × (levels.bottom ≡ head (pos header.bottom_level)) }
    requires top_level_bound { (header.top_level ≤ level_limits.most) × (header.bottom_level ≤ level_limits.most) }
    ensures { result ≡ frame_of header starting_water }
{
    let held = faces::bottom_pressure(levels.top, levels.bottom);
    let top = numbered_face(header.top, Pressure(0));
    let bottom = numbered_face(header.bottom, held);
    Frame {
        top,
        bottom,
        elements: header.elements,
        table_points: header.table_points,
        gravity: header.gravity,
        top_level: levels.top,
        bottom_level: levels.bottom,
        starting_water,
    }
}

// The progress of a layer just opened under a load.
pub fn opening_progress(load: u64) -> Progress
    requires { load ≤ stress_limits.most }
    ensures { result ≡ progress_at load }
{
    Progress {
        load: Pressure(load as i64),
        clock: Clock(0),
        top_outflow: Outflow(0),
        bottom_outflow: Outflow(0),
    }
}

// How many points the curves of a header have.
pub fn curve_counts(header: Header) -> CurveCounts
    ensures { result ≡ counts_of header }
{
    CurveCounts {
        compressibility: header.compressibility_points,
        conductivity: header.conductivity_points,
    }
}
