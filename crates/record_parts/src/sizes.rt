// Cause 5: the limits of levels, solids and water.
ghost use Rattle.std.specs.Prelude.{◌≡◌, ◌≤◌};
ghost use Rattle.numbers.specs.Arrays.{first_places};
ghost use Rattle.numbers.specs.Lists.{all};
ghost use Rattle.rules.specs.Layer.{Site};
ghost use Rattle.quantities.specs.Quantities.{within, element_limits};
ghost use Rattle.rules.specs.Record.{heights_sound, sizes_sound};

use crate::faces;
use quantities::{Face, Head, Quantity, Solids, Water};

// Whether the first numbers keep the limits of a kind, Q.
pub fn all_within<Q: Quantity>(elements: usize, numbers: &[u64; 128]) -> bool
    requires { elements ≤ element_limits.most }
    ensures { result ≡ all (within Q.LIMITS) (first_places elements numbers.now) }
{
    numbers[..elements].iter().all(|number| Q::within(*number))
}

// Whether the solids and the water of the first elements keep their limits.
pub fn heights_sound<'a>(elements: usize, solids: &'a [u64; 128], water: &'a [u64; 128]) -> bool
    requires { elements ≤ element_limits.most }
    ensures { result ≡ heights_sound (first_places elements solids.now) (first_places elements water.now) }
{
    all_within::<Solids>(elements, solids) & all_within::<Water>(elements, water)
}

// Whether levels, solids and water keep their limits, and a closed bottom has level 0.
pub fn sizes_sound<'a>(
    elements: usize,
    top_level: Head,
    bottom_level: Head,
    bottom: Face,
    solids: &'a [u64; 128],
    water: &'a [u64; 128],
) -> bool
    requires { elements ≤ element_limits.most }
    ensures { (site : Site) → site.top_level ≡ top_level.0 → site.bottom_level ≡ bottom_level.0 → site.bottom ≡ bottom → site.solids ≡ first_places elements solids.now → result ≡ sizes_sound site (first_places elements water.now) }
{
    top_level.is_level()
        & bottom_level.is_level()
        & faces::closed_has_no_level(bottom, bottom_level)
        & heights_sound(elements, solids, water)
}
