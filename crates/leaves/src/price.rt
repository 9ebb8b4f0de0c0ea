// The value of a price leaf: all units' least values, and what the periods require.
ghost use Rattle.std.specs.Prelude.{◌≡◌, ◌+◌, ◌*◌, ◌≤◌, ◌<◌, length, ◌+ℤ◌};
ghost use Rattle.model.specs.Instance.{◌at◌};
ghost use Rattle.model.specs.Ranges.{GoodLoad, GoodPrice};
ghost use Rattle.model.specs.Leaf.{requirement};
ghost use Rattle.layout.specs.Plans.{instance_of};
ghost use Rattle.walk.specs.Marks.{above_of};
ghost use Rattle.least.specs.Limits.{GoodPrices};
ghost use Rattle.leaves.specs.LeafLeasts.{leasts_of, leaf_of};
ghost use Rattle.leaves.specs.Limits.{Small};

use crate::ramp::with_requirement;
use layout::plan::Plan;
use least::unit::unit_least;

// The sum of two values.
pub(crate) fn add(x: i64, y: i64) -> i64
    requires { Small x × Small y }
    ensures { result ≡ x +ℤ y }
{
    x + y
}

// The sum of the units' least values, or none where one of them is stuck; unit u's fixed statuses begin at u times the periods.
fn units_least(plan: Plan, q: &[u64], s: &[u64], above: &[u8]) -> Option<i64>
    requires good_prices { GoodPrices (instance_of plan).periods q.now s.now }
    requires numbers_in_bounds { length (instance_of plan).units * (instance_of plan).periods ≤ length above.now }
    ensures { result ≡ leasts_of (instance_of plan.entry).periods (λ t. q.now at t) (λ t. s.now at t) (instance_of plan.entry).units (above_of (instance_of plan.entry) above.now).marks }
{
    let n = plan.periods();
    let mut total = 0;
    for u in 0..plan.units() {
        let begin = u * n;
        let end = begin + n;
        let v = unit_least(plan.unit(u), q, s, &above[begin..end])?;
        total = add(total, v);
    }
    Some(total)
}

// What a period requires at the price q and the reserve price s, demand and spare being its D and R.
fn required(q: u64, s: u64, demand: u64, spare: u64) -> u64
    requires good_price { GoodPrice q × GoodPrice s }
    requires good_load { GoodLoad demand × GoodLoad spare }
    ensures { result ≡ q * demand + s * (demand + spare) }
{
    q * demand + s * (demand + spare)
}

// What all periods require.
pub(crate) fn sum_requirement(plan: Plan, q: &[u64], s: &[u64]) -> u64
    requires { GoodPrices (instance_of plan).periods q.now s.now }
    ensures { result ≡ requirement (instance_of plan.entry) (λ t. q.now at t) (λ t. s.now at t) }
{
    let mut sum = 0;
    for t in 0..plan.periods() {
        sum += required(q[t], s[t], plan.demand(t), plan.spare(t));
    }
    sum
}

// The value of a price leaf, or none where a unit is stuck.
pub fn leaf_value(plan: Plan, q: &[u64], s: &[u64], above: &[u8]) -> Option<i64>
    requires good_prices { GoodPrices (instance_of plan).periods q.now s.now }
    requires numbers_in_bounds { length (instance_of plan).units * (instance_of plan).periods ≤ length above.now }
    ensures { result ≡ leaf_of (instance_of plan.entry) (above_of (instance_of plan.entry) above.now).marks (λ t. q.now at t) (λ t. s.now at t) }
{
    with_requirement(plan, q, s, units_least(plan, q, s, above))
}
