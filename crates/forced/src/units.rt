// All units' entries.
ghost use Rattle.std.specs.Prelude.{◌≡◌, map, ◌*◌, ◌≤◌, length};
ghost use Rattle.model.specs.Instance.{◌at◌};
ghost use Rattle.model.specs.Forced.{forced_tables, value_number, stuck_number};
ghost use Rattle.layout.specs.Plans.{instance_of};
ghost use Rattle.walk.specs.Marks.{above_of};
ghost use Rattle.least.specs.Limits.{GoodPrices};

use crate::unit::unit_forced;
use layout::plan::Plan;

// Writes the units' entries, unit u's from u times twice the periods on.
pub fn write_forced(
    plan: Plan,
    q: &[u64],
    s: &[u64],
    fixed: &[u8],
    values: &mut [i64],
    stuck: &mut [u8],
)
    requires good_prices { GoodPrices (instance_of plan).periods q.now s.now }
    requires numbers_in_bounds { length (instance_of plan).units * (instance_of plan).periods ≤ length fixed.now }
    requires values_len { (length values.old ≡ 2 * (length (instance_of plan).units * (instance_of plan).periods)) × (length stuck.old ≡ 2 * (length (instance_of plan).units * (instance_of plan).periods)) }
    ensures values { values.new ≡ map value_number (forced_tables (instance_of plan.entry).periods (λ t. q.now at t) (λ t. s.now at t) (instance_of plan.entry).units (above_of (instance_of plan.entry) fixed.now).marks) }
    ensures stuck { stuck.new ≡ map stuck_number (forced_tables (instance_of plan.entry).periods (λ t. q.now at t) (λ t. s.now at t) (instance_of plan.entry).units (above_of (instance_of plan.entry) fixed.now).marks) }
{
    let n = plan.periods();
    for u in 0..plan.units() {
        let begin = u * n;
        let end = begin + n;
        unit_forced(
            plan.unit(u),
            q,
            s,
            &fixed[begin..end],
            &mut values[2 * begin..2 * end],
            &mut stuck[2 * begin..2 * end],
        );
    }
}
