// How far rows that stand one after the other fall short of the demand.
ghost use Rattle.std.specs.Prelude.{◌≡◌, ◌*◌, ◌-◌, ◌≤◌, ◌<◌, length};
ghost use Rattle.model.specs.Ranges.{All, GoodOutput};
ghost use Rattle.layout.specs.Plans.{instance_of};
ghost use Rattle.judge.specs.Loads.{output_in};
ghost use Rattle.runs.specs.Columns.{short_of};

use layout::plan::Plan;

// What the rows of so many units give in period t.
fn sum_column(units: usize, periods: usize, rows: &[u64], t: usize) -> u64
    requires units_bound { (units ≤ 32) × (length rows.now ≡ units * periods) × All GoodOutput rows.now }
    requires t_lt_periods { t < periods }
    ensures { result ≡ output_in units periods rows.now t }
{
    let mut sum = 0;
    for u in 0..units {
        sum += rows[u * periods + t];
    }
    sum
}

// Writes how far the units' rows fall short of the demand in each period.
pub fn write_short(plan: Plan, rows: &[u64], short: &mut [u64])
    requires rows_len { (length rows.now ≡ length (instance_of plan).units * (instance_of plan).periods) × All GoodOutput rows.now }
    requires short_len { length short.old ≡ (instance_of plan).periods }
    ensures { short.new ≡ short_of (instance_of plan.entry) rows.now }
{
    let n = plan.periods();
    let units = plan.units();
    for (t, missing) in short.iter_mut().enumerate() {
        *missing = plan.demand(t).saturating_sub(sum_column(units, n, rows, t));
    }
}
