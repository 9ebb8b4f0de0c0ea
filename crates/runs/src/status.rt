// A unit's status in a period, by the values kept of the period after it: off where that is no worse.
ghost use Rattle.std.specs.Prelude.{◌≡◌, ℕ, ◌≤◌, length};
ghost use Rattle.model.specs.Instance.{◌at◌};
ghost use Rattle.model.specs.Rules.{permits, spent};
ghost use Rattle.model.specs.Cost.{switch_cost};
ghost use Rattle.model.specs.Above.{allows};
ghost use Rattle.model.specs.Walk.{move};
ghost use Rattle.model.specs.RunWalk.{no_worse};
ghost use Rattle.walk.specs.Marks.{mark_of};
ghost use Rattle.walk.specs.Limits.{GoodCost, GoodValue};
ghost use Rattle.runs.specs.Kept.{status_by};

use crate::table::kept_at;
use model::generator::Generator;
use model::unit::Unit;
use walk::table::kept_value;

// Whether the status may follow k periods in another or the same, by (5) to (10).
fn is_permitted(g: Generator, on: bool, k: usize, next: bool) -> bool
    ensures { result ≡ permits g on k next }
{
    match (on, next) {
        (true, false) => g.TU <= k,
        (false, true) => g.TD <= k,
        _ => true,
    }
}

// Whether the fixed status allows it.
fn is_allowed(mark: u8, next: bool) -> bool
    ensures { result ≡ allows (mark_of mark) next }
{
    if next { mark != 1 } else { mark != 2 }
}

// What the status costs as a start or a stop.
fn switch_cost(unit: Unit, on: bool, k: usize, next: bool) -> u64
    ensures { result ≡ switch_cost unit.generator on k next }
{
    let g = unit.generator;
    match (on, next) {
        (true, false) => g.Dc,
        (false, true) if k <= g.TD + g.Tcold => g.Hsc,
        (false, true) => g.Csc,
        _ => 0,
    }
}

// How many periods the unit has then been in the status.
pub fn periods_spent(on: bool, k: usize, next: bool) -> usize
    requires { k ≤ 2000 }
    ensures { result ≡ spent on k next }
{
    if on == next { k + 1 } else { 1 }
}

// The status in a period that costs so much in it, with the value after it; coded.
pub fn branch_value(
    unit: Unit,
    mark: u8,
    cost: u64,
    on: bool,
    k: usize,
    next: bool,
    after: u64,
) -> u64
    requires { GoodCost cost × GoodValue after }
    ensures { result ≡ move unit.generator (mark_of mark) cost on k next after }
{
    let g = unit.generator;
    if !is_permitted(g, on, k, next) {
        return 0;
    }
    let spent = switch_cost(unit, on, k, next) + cost;
    kept_value(is_allowed(mark, next), spent, after)
}

// Whether the first of two coded values is no worse.
fn is_no_worse(x: u64, y: u64) -> bool
    ensures { result ≡ no_worse x y }
{
    x != 0 && (y == 0 || x <= y)
}

// Whether a unit that has been in the status for k periods is on in the period before period t of the table; that period costs on or off by its status.
pub fn next_status(
    unit: Unit,
    mark: u8,
    on: u64,
    off: u64,
    table: &[u64],
    t: usize,
    status: bool,
    k: usize,
) -> bool
    requires good_cost { GoodCost on × GoodCost off }
    requires table_len { (length table.now ≡ 7105) × ((i : ℕ) → GoodValue (table.now at i)) }
    requires t_bound { (t ≤ 48) × (1 ≤ k) × (k ≤ 2000) }
    ensures { result ≡ status_by unit.generator mark on off table.now t status k }
{
    let after_off = kept_at(unit, table, t, false, periods_spent(status, k, false));
    let after_on = kept_at(unit, table, t, true, periods_spent(status, k, true));
    let going_off = branch_value(unit, mark, off, status, k, false, after_off);
    let going_on = branch_value(unit, mark, on, status, k, true, after_on);
    !is_no_worse(going_off, going_on)
}
