// Whether the statuses fixed in a period cannot agree with the counts that stand for it.
ghost use Rattle.std.specs.Prelude.{◌≡◌, ℕ, Bool, ◌*◌, ◌≤◌, ◌<◌, length};
ghost use Rattle.model.specs.Above.{Mark};
ghost use Rattle.layout.specs.Plans.{instance_of};
ghost use Rattle.walk.specs.Marks.{mark_of, most_of, above_of, above_length};
ghost use Rattle.leaves.specs.LeafLeasts.{above_most, crowd_at, counted};

use crate::counts::{LOWER, UPPER};
use layout::plan::Plan;

// How many units have a status byte in period t of which `counts` holds.
fn count_units<F: Fn(u8) -> bool>(plan: Plan, t: usize, above: &[u8], counts: F) -> usize
    requires t_bound { t < (instance_of plan).periods }
    requires numbers_in_bounds { length (instance_of plan).units * (instance_of plan).periods ≤ length above.now }
    requires callable { F.IsAlwaysCallable counts }
    ensures { (p : Mark → Bool) → ((x : ℕ) → (r : Bool) → F.post counts x r → r ≡ p (mark_of x)) → result ≡ counted p (instance_of plan.entry).units (above_of (instance_of plan.entry) above.now).marks t }
{
    let n = plan.periods();
    let mut count = 0;
    for u in 0..plan.units() {
        count += usize::from(counts(above[u * n + t]));
    }
    count
}

// Whether so many units are above the upper count that this byte holds.
fn is_above(units: usize, upper: u8) -> bool
    ensures { result ≡ above_most units (most_of upper) }
{
    upper != 0 && usize::from(upper) <= units
}

// Whether the upper count of period t is below the number of units fixed on, or its lower count above that of the units not fixed off.
pub fn is_crowd(plan: Plan, t: usize, above: &[u8]) -> bool
    requires t_bound { t < (instance_of plan).periods }
    requires above_len { length above.now ≡ above_length }
    ensures { result ≡ crowd_at (instance_of plan.entry) (above_of (instance_of plan.entry) above.now) t }
{
    is_above(
        count_units(plan, t, above, |mark| mark == 2),
        above[UPPER + t],
    ) || count_units(plan, t, above, |mark| mark != 1) < usize::from(above[LOWER + t])
}
