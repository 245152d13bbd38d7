// G: the largest ceil(stress rise / void fall) of the compressibility curve's segments.
ghost use Rattle.std.specs.Prelude.{true, ◌≡◌, ◌+◌, ◌-◌, ◌≤◌, ◌<◌};
ghost use Rattle.numbers.specs.Rounding.{ceil};
ghost use Rattle.rules.specs.Curve.{points, compressibility_sound, curve_steepness};
ghost use Rattle.quantities.specs.Quantities.{stress_limits, void_limits, curve_limits};

// The steepness of one segment.
pub fn segment_steepness(void0: u64, stress0: u64, void1: u64, stress1: u64) -> u64
    requires void1_lt_void0 { (void1 < void0) × (stress0 ≤ stress1) }
    requires void0_le_most { (void0 ≤ void_limits.most) × (stress1 ≤ stress_limits.most) }
    ensures { result ≡ ceil (stress1 - stress0) (void0 - void1) }
{
    numbers::ceil(stress1 - stress0, void0 - void1)
}

// The steepness of the whole curve.
#[tactic(auto, using(rules::proofs::Sound::steepness_step, rules::proofs::Sound::steepness_end))]
pub fn curve_steepness<'a>(count: usize, void: &'a [u64; 64], stress: &'a [u64; 64]) -> u64
    requires count_le_most { count ≤ curve_limits.most }
    requires stress_value { compressibility_sound (points count void.now stress.now) ≡ true }
    ensures { result ≡ curve_steepness (points count void.now stress.now) }
{
    let mut most: u64 = 0;
    for i in 1..count {
        let one = segment_steepness(void[i - 1], stress[i - 1], void[i], stress[i]);
        most = most.max(one);
    }
    most
}
