// The least value of one unit at given prices on its output, its reserve, its rises and its falls. The multipliers of rises and falls stand by the period that a step ends with.
ghost use Rattle.std.specs.Prelude.{◌≡◌, suc, pred, ◌+◌, ◌*◌, ◌≤◌, length};
ghost use Rattle.model.specs.Instance.{◌at◌};
ghost use Rattle.model.specs.Ranges.{GoodPrice};
ghost use Rattle.model.specs.RampCosts.{ramp_worth, ramp_walk, ramp_offset};
ghost use Rattle.walk.specs.Marks.{marks_of};
ghost use Rattle.least.specs.UnitLeasts.{ramp_least_of};
ghost use Rattle.least.specs.Limits.{GoodPrices, GoodSteps};
ghost use Rattle.least.specs.Priced.{Costed};

use crate::output::least_on;
use model::unit::Unit;
use walk::walk_value;

// pU, UR and DR, each at its price.
fn limits_value(unit: Unit, price: u64, up: u64, down: u64) -> u64
    requires { (price ≤ 4_000_000_000) × GoodPrice up × GoodPrice down }
    ensures { result ≡ price * unit.generator.pU + up * unit.generator.UR + down * unit.generator.DR }
{
    let g = unit.generator;
    price * g.pU + up * g.UR + down * g.DR
}

// Writes what each period costs on and off, with what is added to it. One function for this and `fill_costs` would take both costs as
// closures that ask for the period to be in every slice: no plainer than a loop each.
fn fill_ramp_costs(
    unit: Unit,
    q: &[u64],
    s: &[u64],
    up: &[u64],
    down: &[u64],
    on: &mut [u64],
    off: &mut [u64],
)
    requires good_prices { GoodPrices (length q.now) q.now s.now }
    requires good_steps { GoodSteps (length q.now) up.now × GoodSteps (length q.now) down.now }
    requires on_len { (length on.old ≡ length q.now) × (length off.old ≡ length q.now) }
    ensures { Costed (length q.now) (ramp_worth (pred (length q.now)) unit.generator (λ t. q.now at t) (λ t. s.now at t) (λ t. up.now at suc t) (λ t. down.now at suc t)) on.new off.new }
{
    let g = unit.generator;
    for t in 0..q.len() {
        let rise = up[t + 1];
        let fall = down[t + 1];
        on[t] = least_on(unit, g.b + (up[t] + fall), q[t] + rise + down[t]);
        off[t] = limits_value(unit, q[t] + s[t], rise, fall);
    }
}

// The unit's walk at the prices, coded.
fn ramp_value(unit: Unit, q: &[u64], s: &[u64], up: &[u64], down: &[u64], fixed: &[u8]) -> u64
    requires good_prices { GoodPrices (length q.now) q.now s.now × (length fixed.now ≡ length q.now) }
    requires good_steps { GoodSteps (length q.now) up.now × GoodSteps (length q.now) down.now }
    ensures { result ≡ ramp_walk (length q.now) (λ t. q.now at t) (λ t. s.now at t) (λ t. up.now at suc t) (λ t. down.now at suc t) unit.generator (marks_of fixed.now) }
{
    let n = q.len();
    let mut on = [0u64; 48];
    let mut off = [0u64; 48];
    fill_ramp_costs(unit, q, s, up, down, &mut on[..n], &mut off[..n]);
    walk_value(unit, &on[..n], &off[..n], fixed)
}

// What was added in all periods.
fn sum_ramp_offset(unit: Unit, q: &[u64], s: &[u64], up: &[u64], down: &[u64]) -> u64
    requires good_prices { GoodPrices (length q.now) q.now s.now }
    requires good_steps { GoodSteps (length q.now) up.now × GoodSteps (length q.now) down.now }
    ensures { result ≡ ramp_offset (length q.now) (λ t. q.now at t) (λ t. s.now at t) (λ t. up.now at suc t) (λ t. down.now at suc t) unit.generator }
{
    let mut sum = 0;
    for t in 0..q.len() {
        let rise = up[t + 1];
        sum += limits_value(unit, q[t] + rise + down[t] + s[t], rise, down[t + 1]);
    }
    sum
}

// The unit's least value at the prices under the fixed statuses (1 off, 2 on), over all its runs and outputs; none where it is stuck.
pub fn ramp_least(
    unit: Unit,
    q: &[u64],
    s: &[u64],
    up: &[u64],
    down: &[u64],
    fixed: &[u8],
) -> Option<i64>
    requires good_prices { GoodPrices (length q.now) q.now s.now × (length fixed.now ≡ length q.now) }
    requires good_steps { GoodSteps (length q.now) up.now × GoodSteps (length q.now) down.now }
    ensures { result ≡ ramp_least_of (length q.now) (λ t. q.now at t) (λ t. s.now at t) (λ t. up.now at suc t) (λ t. down.now at suc t) unit.generator (marks_of fixed.now) }
{
    let value = ramp_value(unit, q, s, up, down, fixed);
    if value == 0 {
        return None;
    }
    let added = sum_ramp_offset(unit, q, s, up, down);
    Some((value - 1) as i64 - added as i64)
}
