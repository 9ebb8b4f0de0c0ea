// One unit: its least value at given prices with the status of each period forced.
ghost use Rattle.std.specs.Prelude.{◌≡◌, map, ℕ, ◌+◌, ◌*◌, ◌<◌, length};
ghost use Rattle.model.specs.Instance.{◌at◌};
ghost use Rattle.model.specs.Forced.{forced_table, value_number, stuck_number};
ghost use Rattle.walk.specs.Marks.{marks_of};
ghost use Rattle.walk.specs.Limits.{GoodCosts};
ghost use Rattle.walk.specs.GoingBack.{costs_of};
ghost use Rattle.least.specs.Limits.{GoodPrices};
ghost use Rattle.runs.specs.Kept.{Kept};
ghost use Rattle.forced.specs.Entries.{Filled};

use crate::entry::entry_value;
use crate::forward::{own_forward, step_forward};
use crate::numbers::write_numbers;
use least::unit::{fill_costs, sum_offset};
use model::unit::Unit;
use runs::table::keep_walk;

// Fills in the coded entries, period by period, off forced before on forced, by the values kept; the lists of states start with nothing in them.
fn fill_forward(
    unit: Unit,
    on: &[u64],
    off: &[u64],
    fixed: &[u8],
    table: &[u64],
    ons: &mut [u64],
    offs: &mut [u64],
    entries: &mut [u64],
)
    requires good_costs { GoodCosts (length on.now) on.now off.now × (length fixed.now ≡ length on.now) }
    requires kept { Kept (length on.now) unit.generator (marks_of fixed.now) (costs_of on.now off.now) table.now }
    requires ons_len { (length ons.old ≡ unit.generator.TU) × (length offs.old ≡ unit.generator.TD + unit.generator.Tcold + 1) }
    requires by_index { ((k : ℕ) → ons.old at k ≡ 0) × ((k : ℕ) → offs.old at k ≡ 0) }
    requires entries_len { length entries.old ≡ 2 * length on.now }
    ensures { Filled (length on.now) unit.generator (marks_of fixed.now) (costs_of on.now off.now) entries.new }
{
    let g = unit.generator;
    let mut own = 1;
    for t in 0..on.len() {
        step_forward(unit, fixed[t], on[t], off[t], t, own, ons, offs);
        own = own_forward(unit, fixed[t], on[t], off[t], g.since + t, own);
        entries[2 * t] = entry_value(unit, table, t + 1, false, offs, own);
        entries[2 * t + 1] = entry_value(unit, table, t + 1, true, ons, own);
    }
}

// Fills in the coded entries over what the periods cost: one walk back with its values kept, and one forward.
fn fill_entries(unit: Unit, on: &[u64], off: &[u64], fixed: &[u8], entries: &mut [u64])
    requires good_costs { GoodCosts (length on.now) on.now off.now × (length fixed.now ≡ length on.now) }
    requires entries_len { length entries.old ≡ 2 * length on.now }
    ensures { Filled (length on.now) unit.generator (marks_of fixed.now) (costs_of on.now off.now) entries.new }
{
    let g = unit.generator;
    let up = g.TU;
    let down = g.TD + g.Tcold + 1;
    let mut table = [0u64; 7105];
    let mut ons = [0u64; 48];
    let mut offs = [0u64; 97];
    keep_walk(unit, on, off, fixed, &mut table);
    fill_forward(
        unit,
        on,
        off,
        fixed,
        &table,
        &mut ons[..up],
        &mut offs[..down],
        entries,
    );
}

// Writes the unit's entries at the prices under the fixed statuses (1 off, 2 on): for each period, off forced before on forced, the least value and 0, or 0 and 1 where
// the unit is then stuck.
pub fn unit_forced(
    unit: Unit,
    q: &[u64],
    s: &[u64],
    fixed: &[u8],
    values: &mut [i64],
    stuck: &mut [u8],
)
    requires good_prices { GoodPrices (length q.now) q.now s.now × (length fixed.now ≡ length q.now) }
    requires values_len { (length values.old ≡ 2 * length q.now) × (length stuck.old ≡ 2 * length q.now) }
    ensures values { values.new ≡ map value_number (forced_table (length q.now) (λ t. q.now at t) (λ t. s.now at t) unit.generator (marks_of fixed.now)) }
    ensures stuck { stuck.new ≡ map stuck_number (forced_table (length q.now) (λ t. q.now at t) (λ t. s.now at t) unit.generator (marks_of fixed.now)) }
{
    let n = q.len();
    let mut on = [0u64; 48];
    let mut off = [0u64; 48];
    let mut entries = [0u64; 96];
    fill_costs(unit, q, s, &mut on[..n], &mut off[..n]);
    fill_entries(unit, &on[..n], &off[..n], fixed, &mut entries[..2 * n]);
    let added = sum_offset(unit, q, s);
    write_numbers(&entries[..2 * n], added, values, stuck);
}
