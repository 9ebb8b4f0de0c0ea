// The values of a unit's states before every period and after the last, kept in one table: those before period t, counted from 0, from 145·t on, on for 1 to TU
// periods first and, 48 places on, off for 1 to TD + Tcold + 1. A coded value is 0 where there is none, and v + 1 for the value v:
// an `Option` would double the table, which stands on the stack, since nothing here allocates.
ghost use Rattle.std.specs.Prelude.{◌≡◌, ℕ, ◌+◌, ◌≤◌, ◌<◌, length};
ghost use Rattle.model.specs.Instance.{◌at◌};
ghost use Rattle.walk.specs.Marks.{marks_of};
ghost use Rattle.walk.specs.Limits.{GoodCosts};
ghost use Rattle.walk.specs.GoingBack.{costs_of};
ghost use Rattle.runs.specs.Kept.{Kept, Stored, kept_in};

use layout::copies::store;
use model::unit::Unit;
use walk::place;
use walk::table::step_back;

// So many states a period has at most.
pub const STATES: usize = 145;

// The states off begin there.
pub const FIRST_OFF: usize = 48;

// Stores the values before period t.
fn store_states(table: &mut [u64], t: usize, ons: &[u64], offs: &[u64])
    requires table_len { (length table.old ≡ 7105) × (t ≤ 48) }
    requires ons_len_bound { (length ons.now ≤ 48) × (length offs.now ≤ 97) }
    ensures { Stored ons.now offs.now table.old table.new t }
{
    let begin = t * STATES;
    store(table, begin, ons);
    store(table, begin + FIRST_OFF, offs);
}

// Takes the values from after the last period, all ones, to before the first, and stores those of every period.
fn store_back(
    unit: Unit,
    on: &[u64],
    off: &[u64],
    fixed: &[u8],
    ons: &mut [u64],
    offs: &mut [u64],
    table: &mut [u64],
)
    requires good_costs { GoodCosts (length on.now) on.now off.now × (length fixed.now ≡ length on.now) }
    requires ons_len { (length ons.old ≡ unit.generator.TU) × (length offs.old ≡ unit.generator.TD + unit.generator.Tcold + 1) }
    requires by_index { ((k : ℕ) → k < unit.generator.TU → ons.old at k ≡ 1) × ((k : ℕ) → k < unit.generator.TD + unit.generator.Tcold + 1 → offs.old at k ≡ 1) }
    requires table_len { (length table.old ≡ 7105) × ((k : ℕ) → table.old at k ≡ 0) }
    ensures { Kept (length on.now) unit.generator (marks_of fixed.now) (costs_of on.now off.now) table.new }
{
    store_states(table, on.len(), ons, offs);
    for t in (0..on.len()).rev() {
        step_back(unit, fixed[t], on[t], off[t], ons, offs);
        store_states(table, t, ons, offs);
    }
}

// The table of a walk over the periods, where period t costs on[t] or off[t] by its status.
pub fn keep_walk(unit: Unit, on: &[u64], off: &[u64], fixed: &[u8], table: &mut [u64])
    requires good_costs { GoodCosts (length on.now) on.now off.now × (length fixed.now ≡ length on.now) }
    requires table_len { (length table.old ≡ 7105) × ((k : ℕ) → table.old at k ≡ 0) }
    ensures { Kept (length on.now) unit.generator (marks_of fixed.now) (costs_of on.now off.now) table.new }
{
    let g = unit.generator;
    let up = g.TU;
    let down = g.TD + g.Tcold + 1;
    let mut ons = [1u64; 48];
    let mut offs = [1u64; 97];
    store_back(
        unit,
        on,
        off,
        fixed,
        &mut ons[..up],
        &mut offs[..down],
        table,
    );
}

// The kept value before period t of a unit that has been in the status for k periods.
pub fn kept_at(unit: Unit, table: &[u64], t: usize, on: bool, k: usize) -> u64
    requires { (length table.now ≡ 7105) × (t ≤ 48) × (1 ≤ k) }
    ensures { result ≡ kept_in unit.generator table.now t on k }
{
    let g = unit.generator;
    let begin = t * STATES;
    if on {
        table[begin + place(k, g.TU)]
    } else {
        table[begin + FIRST_OFF + place(k, g.TD + g.Tcold + 1)]
    }
}
