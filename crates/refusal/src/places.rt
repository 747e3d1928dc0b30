// The first place that a check refuses.
ghost use Rattle.std.specs.Prelude.{◌≡◌, ℕ, ◌+◌, ◌<◌, ◌≤◌, ◌^◌};
ghost use Rattle.layout.specs.Refusal.{first_at};
ghost use Rattle.refusal.specs.Numbers.{broken_by, met_by};

use crate::{Refusal, Rule};

// Of so many places from one on, the first that a check refuses: whatever the number that the check gives to each.
#[inline(always)]
pub fn first_refused<F: Fn(u32) -> Result<(), Rule>>(
    from: u32,
    count: u32,
    check: F,
) -> Result<(), Refusal>
    requires callable { (place : ℕ) → from ≤ place → place < from + count → F.pre check place }
    requires fits { from + count < 2 ^ 32 }
    ensures { (number : ℕ → ℕ) → ((place : ℕ) (r : _) → from ≤ place → place < from + count → F.post check place r → broken_by r ≡ number place) → met_by result ≡ first_at number from count }
{
    for place in from..from + count {
        if let Err(rule) = check(place) {
            return Err(rule.at(place));
        }
    }
    Ok(())
}
