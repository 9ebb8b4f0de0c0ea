// How many units `short` takes in a period, under statuses and an upper count that are asked about.
ghost use Rattle.std.specs.Prelude.{◌≡◌, true, ◌-◌, ◌≤◌};
ghost use Rattle.model.specs.Held.{view, Valid};
ghost use Rattle.leaves.specs.LeafLeasts.{taken_in};
ghost use Rattle.docket.specs.Taking.{fits_in, fits, asked, taken_under};

use layout::copies::store;
use layout::plan::Plan;
use layout::ranking::lay_out_ranked;
use leaves::counts::UPPER;
use leaves::short::{Taken, sum_until};
use model::arrays::Problem;
use runs::question::{Unanswered, has_statuses};

// Whether the question fits so many units in so many periods.
fn is_fit(periods: usize, units: usize, period: usize, most: usize, fixed: &[u8]) -> bool
    requires periods_bound { periods ≤ 48 }
    requires units_bound { units ≤ 32 }
    ensures { result ≡ fits_in periods units period most fixed.now }
{
    (1..=periods).contains(&period) && most <= units && has_statuses(periods, units, fixed)
}

// What is taken under the problem, where the question fits it.
fn take_units(problem: Problem, period: usize, most: usize, fixed: &[u8]) -> Taken
    requires valid { Valid problem }
    requires fixed_value { fits (view problem) period most fixed.now ≡ true }
    ensures { result ≡ taken_in (view problem) (asked (view problem) (period - 1) most fixed.now) (period - 1) }
{
    let t = period - 1;
    let numbers = lay_out_ranked(problem);
    let mut above = [0u8; 1632];
    store(&mut above, 0, fixed);
    above[UPPER + t] = most as u8;
    sum_until(Plan::of(&numbers), t, &above)
}

// What is answered under the problem.
pub fn answer_taken(
    problem: Problem,
    period: usize,
    most: usize,
    fixed: &[u8],
) -> Result<Taken, Unanswered>
    requires { Valid problem }
    ensures { result ≡ taken_under (view problem) period most fixed.now }
{
    if !is_fit(problem.periods, problem.units, period, most, fixed) {
        return Err(Unanswered::Unfit);
    }
    Ok(take_units(problem, period, most, fixed))
}
