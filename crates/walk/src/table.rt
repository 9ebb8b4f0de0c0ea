// One period back over the table of a unit's states. A coded value is 0 where there is none, and v + 1 for the value v: so the definitions
// have it (the model's Walk), and in one word each the loops over a table take four states at a time.
ghost use Rattle.std.specs.Prelude.{◌≡◌, true, false, ℕ, ◌+◌, ◌≤◌, ◌<◌, length};
ghost use Rattle.model.specs.Instance.{◌at◌};
ghost use Rattle.model.specs.Ranges.{Between};
ghost use Rattle.model.specs.Above.{Mark, allows};
ghost use Rattle.model.specs.Walk.{lesser};
ghost use Rattle.model.specs.Table.{kept, Chained};
ghost use Rattle.walk.specs.Marks.{mark_of};
ghost use Rattle.walk.specs.Limits.{GoodCost, GoodValue};
ghost use Rattle.walk.specs.GoingBack.{Back, Backed, Valued, Rising, is_open};

use crate::chain::{fill_states, first_early, keep_states, leave_or_keep_states, lesser_coded};
use model::unit::Unit;

// A coded value with k added, where it is allowed.
pub fn kept_value(allowed: bool, k: u64, v: u64) -> u64
    requires { GoodValue k × GoodValue v }
    ensures { result ≡ kept allowed k v }
{
    if allowed && v != 0 { k + v } else { 0 }
}

// The lesser of two coded values.
pub fn lesser_value(x: u64, y: u64) -> u64
    ensures { result ≡ lesser x y }
{
    if x == 0 {
        return y;
    }
    if y == 0 {
        return x;
    }
    x.min(y)
}

// Takes the values of one status, allowed in the period, back over it; states from the place begin on may be left.
fn keep_back<const VALUED: bool>(
    states: &mut [u64],
    end: usize,
    begin: usize,
    early: u64,
    last: u64,
    cost: u64,
)
    requires begin_le_end { (begin ≤ end) × (length states.old ≡ end + 1) }
    requires good_cost { GoodCost cost × ((k : ℕ) → GoodValue (states.old at k)) }
    requires valued { VALUED ≡ true → (0 < early) × (0 < last) × Valued states.old }
    ensures { Backed states.old states.new begin early last true cost }
{
    let final_state = states[end];
    keep_states::<VALUED>(states, 0, begin, cost);
    leave_or_keep_states::<VALUED>(states, begin, end, early, cost);
    states[end] = lesser_coded::<VALUED>(last, cost, final_state);
}

// The same where the status is not allowed: it can only be left.
fn leave_back(states: &mut [u64], end: usize, begin: usize, early: u64, last: u64)
    requires { (begin ≤ end) × (length states.old ≡ end + 1) }
    ensures { (v : ℕ) → Backed states.old states.new begin early last false v }
{
    fill_states(states, 0, begin, 0);
    fill_states(states, begin, end, early);
    states[end] = last;
}

// Takes the values of one status one period back, which costs cost.
fn chain_back<const VALUED: bool>(
    states: &mut [u64],
    need: usize,
    early: u64,
    last: u64,
    allowed: bool,
    cost: u64,
)
    requires by_index { (k : ℕ) → GoodValue (states.old at k) }
    requires good_cost { GoodCost cost }
    requires valued { VALUED ≡ true → (0 < early) × (0 < last) × Valued states.old }
    ensures { Chained states.old states.new need early last allowed cost }
{
    if states.is_empty() {
        return;
    }
    let end = states.len() - 1;
    let begin = first_early(need, end);
    if allowed {
        keep_back::<VALUED>(states, end, begin, early, last, cost);
    } else {
        leave_back(states, end, begin, early, last);
    }
}

// Takes the values on back over a period, of which only the last may be left, for leaving.
fn on_back<const VALUED: bool>(states: &mut [u64], leaving: u64, allowed: bool, cost: u64)
    requires in_bounds { (1 ≤ length states.old) × ((k : ℕ) → GoodValue (states.old at k)) }
    requires good_cost { GoodCost cost }
    requires valued { VALUED ≡ true → (0 < leaving) × Valued states.old }
    ensures { (need : ℕ) → length states.old ≤ need → Chained states.old states.new need leaving leaving allowed cost }
{
    let end = states.len() - 1;
    if allowed {
        let final_state = states[end];
        keep_states::<VALUED>(states, 0, end, cost);
        states[end] = lesser_coded::<VALUED>(leaving, cost, final_state);
    } else {
        fill_states(states, 0, end, 0);
        states[end] = leaving;
    }
}

// Takes the values of all states back over a period that costs on or off by its status, in which nothing is fixed and every value is there:
// none is tested for.
fn free_back(unit: Unit, on: u64, off: u64, ons: &mut [u64], offs: &mut [u64])
    requires good_cost { GoodCost on × GoodCost off }
    requires between { Between 1 (length ons.old) unit.generator.TU × (1 ≤ length offs.old) }
    requires by_index { ((k : ℕ) → GoodValue (ons.old at k)) × ((k : ℕ) → GoodValue (offs.old at k)) }
    requires valued { Valued ons.old × Valued offs.old }
    ensures { (m : Mark) → allows m true ≡ true → allows m false ≡ true → Back unit.generator m on off ons.old offs.old ons.new offs.new }
{
    let g = unit.generator;
    let leaving = g.Dc + off + offs[0];
    let starting = g.Hsc + on + ons[0];
    let starting_cold = g.Csc + on + ons[0];
    on_back::<true>(ons, leaving, true, on);
    chain_back::<true>(offs, g.TD, starting, starting_cold, true, off);
}

// The same in a period in which mark is what is fixed, each value there or not.
fn marked_back(unit: Unit, mark: u8, on: u64, off: u64, ons: &mut [u64], offs: &mut [u64])
    requires good_cost { GoodCost on × GoodCost off }
    requires between { Between 1 (length ons.old) unit.generator.TU × (1 ≤ length offs.old) }
    requires by_index { ((k : ℕ) → GoodValue (ons.old at k)) × ((k : ℕ) → GoodValue (offs.old at k)) }
    ensures { Back unit.generator (mark_of mark) on off ons.old offs.old ons.new offs.new }
{
    let g = unit.generator;
    let may_on = mark != 1;
    let may_off = mark != 2;
    let leaving = kept_value(may_off, g.Dc + off, offs[0]);
    let starting = kept_value(may_on, g.Hsc + on, ons[0]);
    let starting_cold = kept_value(may_on, g.Csc + on, ons[0]);
    on_back::<false>(ons, leaving, may_on, on);
    chain_back::<false>(offs, g.TD, starting, starting_cold, may_off, off);
}

// Whether nothing is fixed in a period and both values are there.
fn is_open(mark: u8, x: u64, y: u64) -> bool
    ensures { result ≡ is_open mark x y }
{
    mark == 0 && x != 0 && y != 0
}

// The same; where the first state of a status has a value all of them have, and if nothing is fixed either none is tested for.
pub fn step_back(unit: Unit, mark: u8, on: u64, off: u64, ons: &mut [u64], offs: &mut [u64])
    requires good_cost { GoodCost on × GoodCost off }
    requires between { Between 1 (length ons.old) unit.generator.TU × (1 ≤ length offs.old) }
    requires by_index { ((k : ℕ) → GoodValue (ons.old at k)) × ((k : ℕ) → GoodValue (offs.old at k)) }
    requires rising { Rising ons.old × Rising offs.old }
    ensures { Back unit.generator (mark_of mark) on off ons.old offs.old ons.new offs.new }
{
    if is_open(mark, ons[0], offs[0]) {
        free_back(unit, on, off, ons, offs);
    } else {
        marked_back(unit, mark, on, off, ons, offs);
    }
}
