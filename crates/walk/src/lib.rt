// A unit's least value over costs by period, taken back from the last period to the first. A coded value is 0 where there is none,
// and v + 1 for the value v.
#![tactic(auto)]

ghost use Rattle.std.specs.Prelude.{◌≡◌, true, false, ℕ, suc, ◌+◌, ◌-◌, ◌≤◌, ◌<◌, min, length};
ghost use Rattle.model.specs.Instance.{◌at◌};
ghost use Rattle.model.specs.Walk.{Values, back, walk};
ghost use Rattle.model.specs.Table.{values};
ghost use Rattle.walk.specs.Marks.{mark_of, marks_of};
ghost use Rattle.walk.specs.Limits.{GoodCost, GoodCosts, GoodValue};
ghost use Rattle.walk.specs.GoingBack.{by_status, costs_of, Tables};

mod chain;
pub mod table;

use crate::table::{kept_value, lesser_value, step_back};
use model::unit::Unit;

// Takes a table of ones from after the last period to before the first.
fn walk_back(unit: Unit, on: &[u64], off: &[u64], fixed: &[u8], ons: &mut [u64], offs: &mut [u64])
    requires good_costs { GoodCosts (length on.now) on.now off.now × (length fixed.now ≡ length on.now) }
    requires ons_len { (length ons.old ≡ unit.generator.TU) × (length offs.old ≡ unit.generator.TD + unit.generator.Tcold + 1) }
    requires by_index { ((k : ℕ) → k < unit.generator.TU → ons.old at k ≡ 1) × ((k : ℕ) → k < unit.generator.TD + unit.generator.Tcold + 1 → offs.old at k ≡ 1) }
    ensures { Tables unit.generator (values (length on.now) unit.generator (marks_of fixed.now) (costs_of on.now off.now) 0) ons.new offs.new }
{
    for t in (0..on.len()).rev() {
        step_back(unit, fixed[t], on[t], off[t], ons, offs);
    }
}

// The place in a table of len states of the state after n periods.
pub fn place(n: usize, len: usize) -> usize
    requires { (1 ≤ n) × (1 ≤ len) }
    ensures { result ≡ min n len - 1 }
{
    n.min(len) - 1
}

// The values after a period of a unit just started, just stopped, and of one that stayed.
#[derive(Clone, Copy)]
struct After {
    started: u64,
    stopped: u64,
    stayed: u64,
}

// The value, one period back, of the state that the unit reaches from before period 1 without a change: k periods in its status.
fn own_back(unit: Unit, k: usize, mark: u8, on: u64, off: u64, after: After) -> u64
    requires good_cost { GoodCost on × GoodCost off }
    requires good_value { GoodValue after.started × (GoodValue after.stopped × GoodValue after.stayed) }
    ensures { (X : Values) → X true 1 ≡ after.started → X false 1 ≡ after.stopped → X unit.generator.on (suc k) ≡ after.stayed → result ≡ back unit.generator (mark_of mark) (by_status on off) X unit.generator.on k }
{
    let g = unit.generator;
    let may_on = mark != 1;
    let may_off = mark != 2;
    if g.on {
        let staying = kept_value(may_on, on, after.stayed);
        if k < g.TU {
            return staying;
        }
        return lesser_value(kept_value(may_off, g.Dc + off, after.stopped), staying);
    }
    let staying = kept_value(may_off, off, after.stayed);
    if k < g.TD {
        return staying;
    }
    if k <= g.TD + g.Tcold {
        return lesser_value(kept_value(may_on, g.Hsc + on, after.started), staying);
    }
    lesser_value(kept_value(may_on, g.Csc + on, after.started), staying)
}

// The least value, coded, of all periods from the state before period 1. Before period t a unit that has changed its status has
// been in it for t periods at most, so that only so many states of the tables, which start with ones, are taken back.
fn walk_reached(
    unit: Unit,
    on: &[u64],
    off: &[u64],
    fixed: &[u8],
    ons: &mut [u64],
    offs: &mut [u64],
) -> u64
    requires good_costs { GoodCosts (length on.now) on.now off.now × (length fixed.now ≡ length on.now) }
    requires ons_len { (length ons.old ≡ unit.generator.TU) × (length offs.old ≡ unit.generator.TD + unit.generator.Tcold + 1) }
    requires by_index { ((k : ℕ) → k < unit.generator.TU → ons.old at k ≡ 1) × ((k : ℕ) → k < unit.generator.TD + unit.generator.Tcold + 1 → offs.old at k ≡ 1) }
    ensures { result ≡ walk (length on.now) unit.generator (marks_of fixed.now) (costs_of on.now off.now) unit.generator.on unit.generator.since }
{
    let g = unit.generator;
    let mut value = 1;
    for t in (0..on.len()).rev() {
        let after = After {
            started: ons[0],
            stopped: offs[0],
            stayed: value,
        };
        value = own_back(unit, g.since + t, fixed[t], on[t], off[t], after);
        let a = ons.len().min(t + 1);
        let b = offs.len().min(t + 1);
        step_back(unit, fixed[t], on[t], off[t], &mut ons[..a], &mut offs[..b]);
    }
    value
}

// The same over whole tables.
fn walk_all(
    unit: Unit,
    on: &[u64],
    off: &[u64],
    fixed: &[u8],
    ons: &mut [u64],
    offs: &mut [u64],
) -> u64
    requires good_costs { GoodCosts (length on.now) on.now off.now × (length fixed.now ≡ length on.now) }
    requires ons_len { (length ons.old ≡ unit.generator.TU) × (length offs.old ≡ unit.generator.TD + unit.generator.Tcold + 1) }
    requires by_index { ((k : ℕ) → k < unit.generator.TU → ons.old at k ≡ 1) × ((k : ℕ) → k < unit.generator.TD + unit.generator.Tcold + 1 → offs.old at k ≡ 1) }
    ensures { result ≡ walk (length on.now) unit.generator (marks_of fixed.now) (costs_of on.now off.now) unit.generator.on unit.generator.since }
{
    let g = unit.generator;
    walk_back(unit, on, off, fixed, ons, offs);
    if g.on {
        ons[place(g.since, ons.len())]
    } else {
        offs[place(g.since, offs.len())]
    }
}

// Up to so many states a walk over whole tables is quicker.
const FEW_STATES: usize = 24;

// The least value, coded, of all periods from the state before period 1, where period t costs on[t] or off[t] by its status.
pub fn walk_value(unit: Unit, on: &[u64], off: &[u64], fixed: &[u8]) -> u64
    requires { GoodCosts (length on.now) on.now off.now × (length fixed.now ≡ length on.now) }
    ensures { result ≡ walk (length on.now) unit.generator (marks_of fixed.now) (costs_of on.now off.now) unit.generator.on unit.generator.since }
{
    let g = unit.generator;
    let up = g.TU;
    let down = g.TD + g.Tcold + 1;
    let mut ons = [1u64; 48];
    let mut offs = [1u64; 97];
    if up + down <= FEW_STATES {
        walk_all(unit, on, off, fixed, &mut ons[..up], &mut offs[..down])
    } else {
        walk_reached(unit, on, off, fixed, &mut ons[..up], &mut offs[..down])
    }
}
