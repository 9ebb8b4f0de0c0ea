// Whether a unit is stuck.
ghost use Rattle.std.specs.Prelude.{◌≡◌, ◌*◌, ◌≤◌, ◌<◌, length};
ghost use Rattle.model.specs.Ranges.{Between};
ghost use Rattle.model.specs.Leaf.{is_stuck, stuck_at};
ghost use Rattle.layout.specs.Plans.{instance_of};
ghost use Rattle.walk.specs.Marks.{marks_of, above_of};

use layout::plan::Plan;
use model::unit::Unit;
use walk::walk_value;

// Whether no run of the unit obeys (5) to (10) and agrees with the fixed statuses.
fn is_stuck(unit: Unit, fixed: &[u8]) -> bool
    requires { Between 1 (length fixed.now) 48 }
    ensures { result ≡ is_stuck (length fixed.now) unit.generator (marks_of fixed.now) }
{
    let costs = [0u64; 48];
    let free = &costs[..fixed.len()];
    walk_value(unit, free, free, fixed) == 0
}

// Whether unit u is stuck.
pub fn is_unit_stuck(plan: Plan, u: usize, above: &[u8]) -> bool
    requires u_in_bounds { u < length (instance_of plan).units }
    requires numbers_in_bounds { length (instance_of plan).units * (instance_of plan).periods ≤ length above.now }
    ensures { result ≡ stuck_at (instance_of plan.entry).periods (instance_of plan.entry).units (above_of (instance_of plan.entry) above.now).marks u }
{
    let n = plan.periods();
    let begin = u * n;
    let end = begin + n;
    is_stuck(plan.unit(u), &above[begin..end])
}
