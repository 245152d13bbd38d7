// The faces of a layer: their numbers, and what they hold.
ghost use Rattle.std.specs.Prelude.{pos, ◌≡◌};
ghost use Rattle.laws.specs.Amid.{Between};
ghost use Rattle.rules.specs.Layer.{bottom_pressure};
ghost use Rattle.quantities.specs.Quantities.{level_limits};
ghost use Rattle.rules.specs.Record.{face_number, closed_at_zero, face_holds};

use quantities::{Face, Head, Pressure};

// The job's number of a face.
pub fn face_number(face: Face) -> u64
    ensures { result ≡ face_number face }
{
    match face {
        Face::Closed => 0,
        Face::Drained(_) => 1,
    }
}

// Whether a face is closed, or holds a pressure.
pub fn face_holds(face: Face, held: Pressure) -> bool
    ensures { result ≡ face_holds face held }
{
    match face {
        Face::Closed => true,
        Face::Drained(other) => other.0 == held.0,
    }
}

// Whether the bottom is drained, or its level 0.
pub fn closed_has_no_level(bottom: Face, level: Head) -> bool
    ensures { result ≡ closed_at_zero bottom level.0 }
{
    match bottom {
        Face::Closed => level.0 == 0,
        Face::Drained(_) => true,
    }
}

// P, what a drained bottom holds between two levels.
pub fn bottom_pressure(top_level: Head, bottom_level: Head) -> Pressure
    requires { Between (pos 0) (pos level_limits.most) top_level.0 × Between (pos 0) (pos level_limits.most) bottom_level.0 }
    ensures { result ≡ bottom_pressure top_level.0 bottom_level.0 }
{
    Head(bottom_level.0 - top_level.0).as_pressure()
}
