// The kinds of quantity, with their limits and what tests them.

#![tactic(auto)]

ghost use Rattle.std.specs.Prelude.{◌≡◌, ◌≤◌};
ghost use Rattle.numbers.specs.Interval.{Within};
ghost use Rattle.quantities.specs.Quantities.{within_ℤ, stress_limits, void_limits, conductivity_limits, level_limits, clock_limits, solids_limits, water_limits, step_limits, budget_limits, gravity_limits, element_limits, curve_limits, table_limits, flag_limits, start_limits, starting_water_limits, zero_limits, outflow_within, pressure_of};
ghost use Rattle.quantities.specs.Tested.{tested_head, tested_pressure, tested_void, tested_clock};

pub mod quantity;

use quantity::Limits;
pub use quantity::Quantity;

// A length in nanometres: a level, or a head of water, which is a difference of levels.
#[derive(Clone, Copy)]
pub struct Head(pub i64);

impl Quantity for Head {
    ghost LIMITS = { level_limits };

    const LIMITS: Limits = Limits {
        least: Head::LEAST,
        most: Head::MOST,
    };

    // By the constructor.
    fn within(n: u64) -> bool {
        Head::new(n).is_some()
    }
}

impl Head {
    pub const LEAST: u64 = 0;

    pub const MOST: u64 = 200_000_000_000;

    // A level, if it keeps the limits.
    pub fn new(level: u64) -> Option<Head>
        ensures { result ≡ tested_head level }
    {
        if Head::LIMITS.contains(level) {
            Some(Head(level as i64))
        } else {
            None
        }
    }

    // Whether any length is a level within the limits.
    pub fn is_level(self) -> bool
        ensures { result ≡ within_ℤ level_limits self.0 }
    {
        Head::LIMITS.contains_signed(self.0)
    }

    // The pressure of the head, by the weight of water, cut toward zero.
    pub fn as_pressure(self) -> Pressure
        requires { Within self.0 level_limits.most }
        ensures { result ≡ pressure_of self }
    {
        Pressure(numbers::cut(self.0 * 981, 100_000))
    }
}

// A stress or a pressure in millipascals.
#[derive(Clone, Copy)]
pub struct Pressure(pub i64);

impl Quantity for Pressure {
    ghost LIMITS = { stress_limits };

    const LIMITS: Limits = Limits {
        least: Pressure::LEAST,
        most: Pressure::MOST,
    };

    // By the constructor.
    fn within(n: u64) -> bool {
        Pressure::new(n).is_some()
    }
}

impl Pressure {
    pub const LEAST: u64 = 0;

    pub const MOST: u64 = 2_000_000_000;

    // A stress, if it keeps the limits.
    pub fn new(stress: u64) -> Option<Pressure>
        ensures { result ≡ tested_pressure stress }
    {
        if Pressure::LIMITS.contains(stress) {
            Some(Pressure(stress as i64))
        } else {
            None
        }
    }

    // Whether any pressure is a stress within the limits.
    pub fn is_stress(self) -> bool
        ensures { result ≡ within_ℤ stress_limits self.0 }
    {
        Pressure::LIMITS.contains_signed(self.0)
    }
}

// A void ratio in hundred-millionths.
#[derive(Clone, Copy)]
pub struct Void(pub u64);

impl Quantity for Void {
    ghost LIMITS = { void_limits };

    const LIMITS: Limits = Limits {
        least: Void::LEAST,
        most: Void::MOST,
    };

    // By the constructor.
    fn within(n: u64) -> bool {
        Void::new(n).is_some()
    }
}

impl Void {
    // A void ratio of 1.
    pub const ONE: u64 = 100_000_000;

    pub const LEAST: u64 = 1;

    pub const MOST: u64 = 10 * Void::ONE;

    pub fn new(ratio: u64) -> Option<Void>
        ensures { result ≡ tested_void ratio }
    {
        if Void::LIMITS.contains(ratio) {
            Some(Void(ratio))
        } else {
            None
        }
    }
}

// A time in seconds since the opening.
#[derive(Clone, Copy)]
pub struct Clock(pub u64);

impl Quantity for Clock {
    ghost LIMITS = { clock_limits };

    const LIMITS: Limits = Limits {
        least: Clock::LEAST,
        most: Clock::MOST,
    };

    // By the constructor.
    fn within(n: u64) -> bool {
        Clock::new(n).is_some()
    }
}

impl Clock {
    pub const LEAST: u64 = 0;

    pub const MOST: u64 = 3_000_000_000;

    pub fn new(seconds: u64) -> Option<Clock>
        ensures { result ≡ tested_clock seconds }
    {
        if Clock::LIMITS.contains(seconds) {
            Some(Clock(seconds))
        } else {
            None
        }
    }
}

// A hydraulic conductivity in femtometres per second.
#[derive(Clone, Copy)]
pub struct Conductivity(pub u64);

impl Quantity for Conductivity {
    ghost LIMITS = { conductivity_limits };

    const LIMITS: Limits = Limits {
        least: Conductivity::LEAST,
        most: Conductivity::MOST,
    };
}

impl Conductivity {
    pub const LEAST: u64 = 1;

    pub const MOST: u64 = 1_000_000_000;
}

// The solids height of an element in nanometres.
#[derive(Clone, Copy)]
pub struct Solids(pub u64);

impl Quantity for Solids {
    ghost LIMITS = { solids_limits };

    const LIMITS: Limits = Limits {
        least: Solids::LEAST,
        most: Solids::MOST,
    };
}

impl Solids {
    pub const LEAST: u64 = 100_000;

    pub const MOST: u64 = 100_000_000;
}

// The water height of an element in nanometres.
#[derive(Clone, Copy)]
pub struct Water(pub u64);

impl Quantity for Water {
    ghost LIMITS = { water_limits };

    const LIMITS: Limits = Limits {
        least: Water::LEAST,
        most: Water::MOST,
    };
}

impl Water {
    pub const LEAST: u64 = 0;

    // What the most solids hold at the greatest void ratio.
    pub const MOST: u64 = Solids::MOST * Void::MOST / Void::ONE;
}

// The length of a step in seconds.
#[derive(Clone, Copy)]
pub struct Seconds(pub u64);

impl Quantity for Seconds {
    ghost LIMITS = { step_limits };

    const LIMITS: Limits = Limits {
        least: Seconds::LEAST,
        most: Seconds::MOST,
    };
}

impl Seconds {
    pub const LEAST: u64 = 1;

    pub const MOST: u64 = 1_000_000;
}

// The most steps that a run may take.
#[derive(Clone, Copy)]
pub struct Budget(pub u64);

impl Quantity for Budget {
    ghost LIMITS = { budget_limits };

    const LIMITS: Limits = Limits {
        least: Budget::LEAST,
        most: Budget::MOST,
    };
}

impl Budget {
    pub const LEAST: u64 = 0;

    pub const MOST: u64 = 1_000_000;
}

// A specific gravity in thousandths.
#[derive(Clone, Copy)]
pub struct Gravity(pub u64);

impl Quantity for Gravity {
    ghost LIMITS = { gravity_limits };

    const LIMITS: Limits = Limits {
        least: Gravity::LEAST,
        most: Gravity::MOST,
    };
}

impl Gravity {
    pub const LEAST: u64 = 1_000;

    pub const MOST: u64 = 5_000;
}

// How many elements a layer has.
#[derive(Clone, Copy)]
pub struct Elements(pub u64);

impl Quantity for Elements {
    ghost LIMITS = { element_limits };

    const LIMITS: Limits = Limits {
        least: Elements::LEAST,
        most: Elements::MOST,
    };
}

impl Elements {
    pub const LEAST: u64 = 1;

    pub const MOST: u64 = 128;
}

// How many points a curve has.
#[derive(Clone, Copy)]
pub struct CurvePoints(pub u64);

impl Quantity for CurvePoints {
    ghost LIMITS = { curve_limits };

    const LIMITS: Limits = Limits {
        least: CurvePoints::LEAST,
        most: CurvePoints::MOST,
    };
}

impl CurvePoints {
    pub const LEAST: u64 = 2;

    pub const MOST: u64 = 64;
}

// How many points a load table has.
#[derive(Clone, Copy)]
pub struct TablePoints(pub u64);

impl Quantity for TablePoints {
    ghost LIMITS = { table_limits };

    const LIMITS: Limits = Limits {
        least: TablePoints::LEAST,
        most: TablePoints::MOST,
    };
}

impl TablePoints {
    pub const LEAST: u64 = 1;

    pub const MOST: u64 = 64;
}

// A byte that says no or yes.
#[derive(Clone, Copy)]
pub struct Flag(pub u64);

impl Quantity for Flag {
    ghost LIMITS = { flag_limits };

    const LIMITS: Limits = Limits {
        least: Flag::LEAST,
        most: Flag::MOST,
    };
}

impl Flag {
    pub const LEAST: u64 = 0;

    pub const MOST: u64 = 1;
}

// Where the water of a layer comes from: 0 as given, 1 at rest, 2 given and steady.
#[derive(Clone, Copy)]
pub struct Start(pub u64);

impl Quantity for Start {
    ghost LIMITS = { start_limits };

    const LIMITS: Limits = Limits {
        least: Start::LEAST,
        most: Start::MOST,
    };
}

impl Start {
    pub const LEAST: u64 = 0;

    pub const MOST: u64 = 2;

    pub const REST: u64 = 1;

    pub const STEADY: u64 = 2;
}

// All water of a layer as it was opened, in nanometres.
#[derive(Clone, Copy)]
pub struct StartingWater(pub u64);

impl Quantity for StartingWater {
    ghost LIMITS = { starting_water_limits };

    const LIMITS: Limits = Limits {
        least: StartingWater::LEAST,
        most: StartingWater::MOST,
    };
}

impl StartingWater {
    pub const LEAST: u64 = 0;

    // The most water in as many elements as there can be.
    pub const MOST: u64 = Elements::MOST * Water::MOST;
}

// What has flowed out through an outer face since the opening, in nanometres.
#[derive(Clone, Copy)]
pub struct Outflow(pub i64);

impl Outflow {
    // The most, in size, for each second of the clock.
    pub const RATE: u64 = 2_300_000_000;

    // Whether an outflow keeps its bound at a clock within its limits.
    pub fn within(self, clock: Clock) -> bool
        requires { clock.0 ≤ clock_limits.most }
        ensures { result ≡ outflow_within self.0 clock.0 }
    {
        let most = (Outflow::RATE * clock.0) as i64;
        0 - most <= self.0 && self.0 <= most
    }
}

// A field that must be 0.
#[derive(Clone, Copy)]
pub struct Zero(pub u64);

impl Quantity for Zero {
    ghost LIMITS = { zero_limits };

    const LIMITS: Limits = Limits { least: 0, most: 0 };
}

// An outer face of the layer. A drained one holds a pressure.
#[derive(Clone, Copy)]
pub enum Face {
    Closed,
    Drained(Pressure),
}
