// One unit: its least value at given prices, and the run that has it.
ghost use Rattle.std.specs.Prelude.{◌≡◌, cond, length};
ghost use Rattle.model.specs.Instance.{◌at◌};
ghost use Rattle.model.specs.Ranges.{All, GoodPrice};
ghost use Rattle.model.specs.Rules.{if_on};
ghost use Rattle.model.specs.Leaf.{is_stuck};
ghost use Rattle.model.specs.Walk.{walk};
ghost use Rattle.model.specs.Prices.{best_output, price_walk};
ghost use Rattle.model.specs.Runs.{least_row};
ghost use Rattle.model.specs.RunWalk.{first_run, row_of, walked_row};
ghost use Rattle.walk.specs.Marks.{marks_of};
ghost use Rattle.walk.specs.Limits.{GoodCosts};
ghost use Rattle.walk.specs.GoingBack.{costs_of};
ghost use Rattle.least.specs.UnitLeasts.{least_of};
ghost use Rattle.least.specs.Limits.{GoodPrices};
ghost use Rattle.runs.specs.Kept.{Kept, row_found};

use crate::status::{next_status, periods_spent};
use crate::table::{keep_walk, kept_at};
use least::output::best_output;
use least::unit::{fill_costs, sum_offset};
use model::unit::Unit;

// The best output of a unit that is on, else 0.
fn output_of(unit: Unit, q: u64, on: bool) -> u64
    requires { GoodPrice q }
    ensures { result ≡ if_on on (best_output unit.generator q) }
{
    if on {
        best_output(unit, unit.generator.b, q)
    } else {
        0
    }
}

// Writes the run forward from the state before period 1, by the values kept.
fn write_row(
    unit: Unit,
    q: &[u64],
    on: &[u64],
    off: &[u64],
    fixed: &[u8],
    table: &[u64],
    row: &mut [u64],
)
    requires all { All GoodPrice q.now }
    requires good_costs { GoodCosts (length q.now) on.now off.now × (length fixed.now ≡ length q.now) }
    requires kept { Kept (length q.now) unit.generator (marks_of fixed.now) (costs_of on.now off.now) table.now }
    requires row_len { length row.old ≡ length q.now }
    ensures { row.new ≡ row_of (λ t. best_output unit.generator (q.now at t)) (first_run (length q.now) unit.generator (marks_of fixed.now) (costs_of on.now off.now) unit.generator.on unit.generator.since) }
{
    let g = unit.generator;
    let mut status = g.on;
    let mut k = g.since;
    for (t, output) in row.iter_mut().enumerate() {
        let next = next_status(unit, fixed[t], on[t], off[t], table, t + 1, status, k);
        *output = output_of(unit, q[t], next);
        k = periods_spent(status, k, next);
        status = next;
    }
}

// The walk over what the periods cost, coded; where it has a value the run that has it is written.
fn write_walk(unit: Unit, q: &[u64], on: &[u64], off: &[u64], fixed: &[u8], row: &mut [u64]) -> u64
    requires all { All GoodPrice q.now }
    requires good_costs { GoodCosts (length q.now) on.now off.now × (length fixed.now ≡ length q.now) }
    requires row_len { length row.old ≡ length q.now }
    ensures value { result ≡ walk (length q.now) unit.generator (marks_of fixed.now) (costs_of on.now off.now) unit.generator.on unit.generator.since }
    ensures row { row.new ≡ row_found (walk (length q.now) unit.generator (marks_of fixed.now) (costs_of on.now off.now) unit.generator.on unit.generator.since) row.old (row_of (λ t. best_output unit.generator (q.now at t)) (first_run (length q.now) unit.generator (marks_of fixed.now) (costs_of on.now off.now) unit.generator.on unit.generator.since)) }
{
    let g = unit.generator;
    let mut table = [0u64; 7105];
    keep_walk(unit, on, off, fixed, &mut table);
    let found = kept_at(unit, &table, 0, g.on, g.since);
    if found == 0 {
        return 0;
    }
    write_row(unit, q, on, off, fixed, &table, row);
    found
}

// The same at the prices.
fn write_priced(unit: Unit, q: &[u64], s: &[u64], fixed: &[u8], row: &mut [u64]) -> u64
    requires good_prices { GoodPrices (length q.now) q.now s.now × (length fixed.now ≡ length q.now) }
    requires row_len { length row.old ≡ length q.now }
    ensures value { result ≡ price_walk (length q.now) (λ t. q.now at t) (λ t. s.now at t) unit.generator (marks_of fixed.now) }
    ensures row { row.new ≡ row_found (price_walk (length q.now) (λ t. q.now at t) (λ t. s.now at t) unit.generator (marks_of fixed.now)) row.old (walked_row (length q.now) (λ t. q.now at t) (λ t. s.now at t) unit.generator (marks_of fixed.now)) }
{
    let n = q.len();
    let mut on = [0u64; 48];
    let mut off = [0u64; 48];
    fill_costs(unit, q, s, &mut on[..n], &mut off[..n]);
    write_walk(unit, q, &on[..n], &off[..n], fixed, row)
}

// The unit's least value at the prices under the fixed statuses (1 off, 2 on), and in `row` the first run that has it, 0 for off; or that it is stuck, and the row is
// as it was.
pub fn unit_run(unit: Unit, q: &[u64], s: &[u64], fixed: &[u8], row: &mut [u64]) -> Option<i64>
    requires good_prices { GoodPrices (length q.now) q.now s.now × (length fixed.now ≡ length q.now) }
    requires row_len { length row.old ≡ length q.now }
    ensures least { result ≡ least_of (length q.now) (λ t. q.now at t) (λ t. s.now at t) unit.generator (marks_of fixed.now) }
    ensures row { row.new ≡ cond (is_stuck (length q.now) unit.generator (marks_of fixed.now)) row.old (least_row (length q.now) (λ t. q.now at t) (λ t. s.now at t) unit.generator (marks_of fixed.now)) }
{
    let value = write_priced(unit, q, s, fixed, row);
    if value == 0 {
        return None;
    }
    let added = sum_offset(unit, q, s);
    Some((value - 1) as i64 - added as i64)
}
