// Cause 3: the limits of faces, counts, start and specific gravity.
ghost use Rattle.std.specs.Prelude.{◌≡◌};
ghost use Rattle.rules.specs.Job.{header_sound};
ghost use Rattle.rules.specs.Record.{form_sound};

use quantities::{CurvePoints, Elements, Flag, Gravity, Quantity, Start, TablePoints};
use rules::job::Header;

// Whether the numbers of a job's bytes 5 to 13 keep their limits.
pub fn form_sound(
    top: u64,
    bottom: u64,
    elements: usize,
    compressibility_points: usize,
    conductivity_points: usize,
    table_points: usize,
    start: u64,
    gravity: u64,
) -> bool
    ensures { result ≡ form_sound top bottom elements compressibility_points conductivity_points table_points start gravity }
{
    Flag::within(top)
        & Flag::within(bottom)
        & Elements::within(elements as u64)
        & CurvePoints::within(compressibility_points as u64)
        & CurvePoints::within(conductivity_points as u64)
        & TablePoints::within(table_points as u64)
        & Start::within(start)
        & Gravity::within(gravity)
}

// Cause 3, of a header: whether its numbers keep their limits.
pub fn header_sound(header: Header) -> bool
    ensures { result ≡ header_sound header }
{
    form_sound(
        header.top,
        header.bottom,
        header.elements,
        header.compressibility_points,
        header.conductivity_points,
        header.table_points,
        header.start,
        header.gravity,
    )
}
