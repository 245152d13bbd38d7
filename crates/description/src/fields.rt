// Cause 5: the limits of a description's fields.
ghost use Rattle.std.specs.Prelude.{List, ◌≡◌, ℕ, ◌≤◌};
ghost use Rattle.description.specs.Causes.{fields_answer};
ghost use Rattle.description.specs.Lent.{description_of};
ghost use Rattle.quantities.specs.Quantities.{element_limits};

use quantities::{Budget, Clock, Head, Quantity, Start, Zero};
use record_parts::sizes;
use rules::job::Header;

// The levels of a description.
#[derive(Clone, Copy)]
pub struct Levels {
    pub top: Head,
    pub bottom: Head,
}

// Tests levels, end, budget, solids and water, and gives the levels where the fields keep their limits and are 0 where they must be. The
// arrays of the curves and of the table do not matter.
pub fn check_fields<'a>(
    header: Header,
    solids: &'a [u64; 128],
    water: &'a [u64; 128],
) -> Option<Levels>
    requires { header.elements ≤ element_limits.most }
    ensures { (void stress conductivity_void conductivity table_time table_load : List ℕ) → result ≡ fields_answer (description_of header void stress conductivity_void conductivity solids.now water.now table_time table_load) }
{
    let elements = header.elements;
    let start = header.start;
    let top = Head::new(header.top_level)?;
    let bottom = Head::new(header.bottom_level)?;
    Clock::new(header.end)?;
    let sound = ((header.bottom != 0) | (header.bottom_level == 0))
        & sizes::heights_sound(elements, solids, water)
        & Budget::within(header.budget)
        & ((start != Start::REST) | sizes::all_within::<Zero>(elements, water));
    if sound {
        Some(Levels { top, bottom })
    } else {
        None
    }
}
