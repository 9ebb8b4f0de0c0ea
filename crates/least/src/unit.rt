// The least value of one unit at given prices.
ghost use Rattle.std.specs.Prelude.{◌≡◌, ◌+◌, ◌<◌, length};
ghost use Rattle.model.specs.Instance.{◌at◌};
ghost use Rattle.model.specs.Prices.{price_walk, offset};
ghost use Rattle.walk.specs.Marks.{marks_of};
ghost use Rattle.least.specs.UnitLeasts.{least_of};
ghost use Rattle.least.specs.Limits.{GoodPrices};
ghost use Rattle.least.specs.Priced.{Priced};

use crate::output::least_on;
use model::unit::Unit;
use walk::walk_value;

// Writes what each period costs on and off, with (q + s)·pU added.
pub fn fill_costs(unit: Unit, q: &[u64], s: &[u64], on: &mut [u64], off: &mut [u64])
    requires good_prices { GoodPrices (length q.now) q.now s.now }
    requires on_len { (length on.old ≡ length q.now) × (length off.old ≡ length q.now) }
    ensures { Priced unit.generator q.now s.now on.new off.new }
{
    let g = unit.generator;
    for t in 0..q.len() {
        on[t] = least_on(unit, g.b, q[t]);
        off[t] = (q[t] + s[t]) * g.pU;
    }
}

// The unit's walk at the prices, coded.
fn price_value(unit: Unit, q: &[u64], s: &[u64], fixed: &[u8]) -> u64
    requires { GoodPrices (length q.now) q.now s.now × (length fixed.now ≡ length q.now) }
    ensures { result ≡ price_walk (length q.now) (λ t. q.now at t) (λ t. s.now at t) unit.generator (marks_of fixed.now) }
{
    let n = q.len();
    let mut on = [0u64; 48];
    let mut off = [0u64; 48];
    fill_costs(unit, q, s, &mut on[..n], &mut off[..n]);
    walk_value(unit, &on[..n], &off[..n], fixed)
}

// What was added in all periods.
// By a loop: of a chain of map and sum three goals stayed open. Not one with the sum for ramps, which goes over four slices by index.
pub fn sum_offset(unit: Unit, q: &[u64], s: &[u64]) -> u64
    requires { GoodPrices (length q.now) q.now s.now }
    ensures { result ≡ offset (length q.now) (λ t. q.now at t) (λ t. s.now at t) unit.generator }
{
    let mut sum = 0;
    for (q, s) in q.iter().zip(s) {
        sum += (*q + *s) * unit.generator.pU;
    }
    sum
}

// The unit's least value at the prices under the fixed statuses (1 off, 2 on), over all its runs and outputs; none where it is stuck.
pub fn unit_least(unit: Unit, q: &[u64], s: &[u64], fixed: &[u8]) -> Option<i64>
    requires { GoodPrices (length q.now) q.now s.now × (length fixed.now ≡ length q.now) }
    ensures { result ≡ least_of (length q.now) (λ t. q.now at t) (λ t. s.now at t) unit.generator (marks_of fixed.now) }
{
    let value = price_value(unit, q, s, fixed);
    if value == 0 {
        return None;
    }
    let added = sum_offset(unit, q, s);
    Some((value - 1) as i64 - added as i64)
}
