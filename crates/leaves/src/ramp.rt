// The value of a leaf with prices on the ramps, unit by unit: what the units passed answer, one unit more, and what the periods require.
ghost use Rattle.std.specs.Prelude.{◌≡◌, suc, ◌*◌, ◌≤◌, ◌<◌, length, get_or};
ghost use Rattle.model.specs.Instance.{◌at◌};
ghost use Rattle.model.specs.Held.{blank_generator};
ghost use Rattle.layout.specs.Plans.{instance_of};
ghost use Rattle.walk.specs.Marks.{above_of};
ghost use Rattle.least.specs.Limits.{GoodPrices, GoodSteps};
ghost use Rattle.least.specs.UnitLeasts.{ramp_least_of};
ghost use Rattle.leaves.specs.LeafLeasts.{plus_unit, plus_requirement};
ghost use Rattle.leaves.specs.Limits.{SmallLeast};

use crate::price::{add, sum_requirement};
use layout::plan::Plan;
use least::ramp::ramp_least;

// What unit u answers; its fixed statuses begin at u times the periods.
fn unit_answer(
    plan: Plan,
    u: usize,
    q: &[u64],
    s: &[u64],
    up: &[u64],
    down: &[u64],
    above: &[u8],
) -> Option<i64>
    requires u_in_bounds { u < length (instance_of plan).units }
    requires good_prices { GoodPrices (instance_of plan).periods q.now s.now }
    requires good_steps { GoodSteps (instance_of plan).periods up.now × GoodSteps (instance_of plan).periods down.now }
    requires numbers_in_bounds { length (instance_of plan).units * (instance_of plan).periods ≤ length above.now }
    ensures { result ≡ ramp_least_of (instance_of plan.entry).periods (λ t. q.now at t) (λ t. s.now at t) (λ t. up.now at suc t) (λ t. down.now at suc t) (get_or (instance_of plan.entry).units u blank_generator) ((above_of (instance_of plan.entry) above.now).marks u) }
{
    let n = plan.periods();
    let begin = u * n;
    let end = begin + n;
    ramp_least(plan.unit(u), q, s, up, down, &above[begin..end])
}

// What the units passed answer, and unit u. It is asked only where none of them is stuck.
pub fn add_unit(
    plan: Plan,
    u: usize,
    q: &[u64],
    s: &[u64],
    up: &[u64],
    down: &[u64],
    above: &[u8],
    sum: Option<i64>,
) -> Option<i64>
    requires u_in_bounds { u < length (instance_of plan).units }
    requires good_prices { GoodPrices (instance_of plan).periods q.now s.now }
    requires good_steps { GoodSteps (instance_of plan).periods up.now × GoodSteps (instance_of plan).periods down.now }
    requires numbers_in_bounds { length (instance_of plan).units * (instance_of plan).periods ≤ length above.now }
    requires small_least { SmallLeast sum }
    ensures { result ≡ plus_unit sum (ramp_least_of (instance_of plan.entry).periods (λ t. q.now at t) (λ t. s.now at t) (λ t. up.now at suc t) (λ t. down.now at suc t) (get_or (instance_of plan.entry).units u blank_generator) ((above_of (instance_of plan.entry) above.now).marks u)) }
{
    let before = sum?;
    let v = unit_answer(plan, u, q, s, up, down, above)?;
    Some(add(before, v))
}

// What all units answer, with what the periods require.
pub fn with_requirement(plan: Plan, q: &[u64], s: &[u64], sum: Option<i64>) -> Option<i64>
    requires good_prices { GoodPrices (instance_of plan).periods q.now s.now }
    requires small_least { SmallLeast sum }
    ensures { result ≡ plus_requirement (instance_of plan.entry) (λ t. q.now at t) (λ t. s.now at t) sum }
{
    let v = sum?;
    let requirement = sum_requirement(plan, q, s);
    Some(add(v, requirement as i64))
}
