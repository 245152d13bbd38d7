// The limits of a kind of quantity.
ghost use Rattle.std.specs.Prelude.{◌≡◌};
ghost use Rattle.quantities.specs.Quantities.{within, within_ℤ};
ghost use Rattle.quantities.specs.declared.quantity.Limits.{Limits};

// The least and the greatest number of a kind.
#[derive(Clone, Copy)]
pub struct Limits {
    pub least: u64,
    pub most: u64,
}

impl Limits {
    // Whether a number keeps the limits.
    pub fn contains(self, n: u64) -> bool
        ensures { result ≡ within self n }
    {
        self.least <= n && n <= self.most
    }

    // Whether a signed number keeps the limits: none of the kinds goes below 0.
    pub fn contains_signed(self, z: i64) -> bool
        ensures { result ≡ within_ℤ self z }
    {
        if z < 0 {
            return false;
        }
        self.contains(z as u64)
    }
}

// A kind of quantity: it has limits.
pub trait Quantity {
    ghost LIMITS: { Limits };

    const LIMITS: Limits;

    // Whether a number keeps the limits of the kind.
    fn within(n: u64) -> bool
        ensures { result ≡ within LIMITS n }
    {
        Self::LIMITS.contains(n)
    }
}
