// One period forward over the table of a unit's states: for each the least cost of the runs that end in it, on for 1 to TU periods and off for 1 to TD + Tcold + 1. The
// table is of the runs that have changed their status, which before period t, counted from 0, have been in it for t periods at most; the run that has not is followed
// alone. A coded value is 0 where there is none, and v + 1 for the value v, as in the kept table.
ghost use Rattle.std.specs.Prelude.{◌≡◌, true, false, ℕ, ◌+◌, ◌-◌, ◌≤◌, ◌<◌, length};
ghost use Rattle.model.specs.Instance.{◌at◌};
ghost use Rattle.model.specs.Walk.{move};
ghost use Rattle.model.specs.ForcedWalk.{least_upto};
ghost use Rattle.walk.specs.Marks.{mark_of};
ghost use Rattle.walk.specs.Limits.{GoodCost, GoodValue};
ghost use Rattle.walk.specs.GoingBack.{by_status};
ghost use Rattle.forced.specs.Forward.{Beyond, Moved, Shifted, Stepped, started, own_into};

use model::unit::Unit;
use runs::status::branch_value;
use walk::table::{kept_value, lesser_value};

// The least value of the states from `from` up to `to`, which is not among them.
fn least_state(states: &[u64], from: usize, to: usize) -> u64
    requires { to ≤ length states.now }
    ensures { result ≡ least_upto (to - from) (λ i. states.now at (from + i)) }
{
    let mut found = 0;
    for i in from..to {
        found = lesser_value(found, states[i]);
    }
    found
}

// What the states off bring to a start in a period that costs so much on; t of them have been reached at most.
fn started_value(unit: Unit, mark: u8, on: u64, t: usize, offs: &[u64]) -> u64
    requires good_cost { GoodCost on }
    requires offs_len { (length offs.now ≡ unit.generator.TD + unit.generator.Tcold + 1) × ((k : ℕ) → GoodValue (offs.now at k)) }
    requires beyond { Beyond t offs.now }
    ensures { result ≡ started unit.generator (mark_of mark) on offs.now }
{
    let g = unit.generator;
    let end = g.TD + g.Tcold;
    let may_on = mark != 1;
    let early = least_state(offs, g.TD - 1, t.min(end));
    let starting = kept_value(may_on, g.Hsc + on, early);
    let starting_cold = kept_value(may_on, g.Csc + on, offs[end]);
    lesser_value(starting, starting_cold)
}

// What the run that has not changed its status for k periods brings to the other status, in a period that costs so much in that.
fn own_into(unit: Unit, mark: u8, cost: u64, k: usize, next: bool, own: u64) -> u64
    requires { GoodCost cost × GoodValue own }
    ensures { result ≡ own_into unit.generator (mark_of mark) cost k next own }
{
    let g = unit.generator;
    if g.on == next {
        return 0;
    }
    branch_value(unit, mark, cost, g.on, k, next, own)
}

// Its value after a period that costs on or off by its status.
pub fn own_forward(unit: Unit, mark: u8, on: u64, off: u64, k: usize, own: u64) -> u64
    requires { GoodCost on × GoodCost off × GoodValue own }
    ensures { result ≡ move unit.generator (mark_of mark) (by_status on off unit.generator.on) unit.generator.on k unit.generator.on own }
{
    let g = unit.generator;
    let cost = if g.on { on } else { off };
    branch_value(unit, mark, cost, g.on, k, g.on, own)
}

// Takes the states up to the place top one place on, at the cost of keeping the status.
fn move_states(states: &mut [u64], top: usize, allowed: bool, cost: u64)
    requires top_in_bounds { top < length states.old }
    requires good_cost { GoodCost cost × ((k : ℕ) → GoodValue (states.old at k)) }
    ensures { Moved states.old states.new top allowed cost }
{
    for i in (0..top).rev() {
        states[i + 1] = kept_value(allowed, cost, states[i]);
    }
}

// Takes the states of one status over a period that costs so much in it; t of them have been reached at most, and what enters the status comes first.
fn shift_states(states: &mut [u64], t: usize, entered: u64, allowed: bool, cost: u64)
    requires in_bounds { 1 ≤ length states.old }
    requires good_cost { GoodCost cost × ((k : ℕ) → GoodValue (states.old at k)) }
    requires beyond { Beyond t states.old }
    ensures { Shifted states.old states.new entered allowed cost }
{
    let end = states.len() - 1;
    let last = kept_value(allowed, cost, states[end]);
    move_states(states, t.min(end), allowed, cost);
    states[0] = entered;
    states[end] = lesser_value(states[end], last);
}

// Takes the table over period t, which costs on or off by its status; own is the value of the run that has not changed its status before it.
pub fn step_forward(
    unit: Unit,
    mark: u8,
    on: u64,
    off: u64,
    t: usize,
    own: u64,
    ons: &mut [u64],
    offs: &mut [u64],
)
    requires good_cost { GoodCost on × GoodCost off × GoodValue own × (t ≤ 48) }
    requires ons_len { (length ons.old ≡ unit.generator.TU) × (length offs.old ≡ unit.generator.TD + unit.generator.Tcold + 1) }
    requires by_index { ((k : ℕ) → GoodValue (ons.old at k)) × ((k : ℕ) → GoodValue (offs.old at k)) }
    requires beyond { Beyond t ons.old × Beyond t offs.old }
    ensures { Stepped unit.generator (mark_of mark) (by_status on off) (unit.generator.since + t) own ons.old offs.old ons.new offs.new }
{
    let g = unit.generator;
    let k = g.since + t;
    let may_on = mark != 1;
    let may_off = mark != 2;
    let starting = started_value(unit, mark, on, t, offs);
    let stopping = kept_value(may_off, g.Dc + off, ons[g.TU - 1]);
    let entered_on = lesser_value(starting, own_into(unit, mark, on, k, true, own));
    let entered_off = lesser_value(stopping, own_into(unit, mark, off, k, false, own));
    shift_states(ons, t, entered_on, may_on, on);
    shift_states(offs, t, entered_off, may_off, off);
}
