// All units: their runs, and the first of them that is stuck.
ghost use Rattle.std.specs.Prelude.{◌≡◌, false, ◌*◌, ◌≤◌, length};
ghost use mathlib.Core.List.{flatten};
ghost use Rattle.model.specs.Instance.{◌at◌};
ghost use Rattle.model.specs.Leaf.{any_stuck};
ghost use Rattle.model.specs.Runs.{first_stuck, least_rows};
ghost use Rattle.layout.specs.Plans.{instance_of};
ghost use Rattle.walk.specs.Marks.{above_of};
ghost use Rattle.least.specs.Limits.{GoodPrices};

use crate::unit::unit_run;
use layout::plan::Plan;
use least::stuck::is_unit_stuck;

// The first unit that is stuck, counted from 0, or how many there are if none is.
pub fn first_stuck(plan: Plan, fixed: &[u8]) -> usize
    requires { length (instance_of plan).units * (instance_of plan).periods ≤ length fixed.now }
    ensures { result ≡ first_stuck (instance_of plan.entry).periods (instance_of plan.entry).units (above_of (instance_of plan.entry) fixed.now).marks }
{
    let units = plan.units();
    for u in 0..units {
        if is_unit_stuck(plan, u, fixed) {
            return u;
        }
    }
    units
}

// Writes the units' runs, unit u's from u times the periods on, where none is stuck.
pub fn write_runs(plan: Plan, q: &[u64], s: &[u64], fixed: &[u8], rows: &mut [u64])
    requires good_prices { GoodPrices (instance_of plan).periods q.now s.now }
    requires numbers_in_bounds { length (instance_of plan).units * (instance_of plan).periods ≤ length fixed.now }
    requires rows_len { length rows.old ≡ length (instance_of plan).units * (instance_of plan).periods }
    requires fixed_value { any_stuck (instance_of plan).periods (instance_of plan).units (above_of (instance_of plan) fixed.now).marks ≡ false }
    ensures { rows.new ≡ flatten (least_rows (instance_of plan.entry).periods (λ t. q.now at t) (λ t. s.now at t) (instance_of plan.entry).units (above_of (instance_of plan.entry) fixed.now).marks) }
{
    let n = plan.periods();
    for u in 0..plan.units() {
        let begin = u * n;
        let end = begin + n;
        let unit = plan.unit(u);
        unit_run(unit, q, s, &fixed[begin..end], &mut rows[begin..end]);
    }
}
