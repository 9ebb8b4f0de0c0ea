// 22 and 23: demand and spare, by (2) and (3).
ghost use Rattle.std.specs.Prelude.{◌≡◌, ◌<◌, length};
ghost use Rattle.model.specs.Held.{view};
ghost use Rattle.model.specs.Ranges.{All, GoodOutput};
ghost use Rattle.model.specs.Rules.{if_on, on};
ghost use Rattle.model.specs.Breach.{place22, place23};
ghost use Rattle.judge.specs.Judgement.{place_found};
ghost use Rattle.judge.specs.Rows.{schedule_of, Fitting};
ghost use Rattle.judge.specs.Loads.{Standing, output_in, capacities, capacity_in};

use crate::place::Place;
use model::arrays::Problem;
use std::array;

// What so many units give in period t, in rows of so many periods.
// By a loop: a chain's sum needs its bound at each step.
fn sum_outputs(units: usize, periods: usize, rows: &[u16], t: usize) -> u64
    requires { Standing units periods rows.now × (t < periods) }
    ensures { result ≡ output_in units periods rows.now t }
{
    let mut total = 0;
    for u in 0..units {
        total += u64::from(rows[u * periods + t]);
    }
    total
}

// The capacity, if the output is above 0, or else 0.
fn count_if_on(capacity: u64, output: u16) -> u64
    ensures { result ≡ if_on (on output) capacity }
{
    if output == 0 { 0 } else { capacity }
}

// The pU of every unit.
fn list_capacities(problem: Problem) -> [u64; 32]
    ensures { result ≡ capacities problem }
{
    array::from_fn(|u| problem.generators[u].pU)
}

// The pU of the units that are on in period t, in rows of so many periods.
fn sum_capacities(capacities: &[u64], periods: usize, rows: &[u16], t: usize) -> u64
    requires { Standing (length capacities.now) periods rows.now × (t < periods) × All GoodOutput capacities.now }
    ensures { result ≡ capacity_in capacities.now periods rows.now t }
{
    let mut total = 0;
    for (u, capacity) in capacities.iter().enumerate() {
        total += count_if_on(*capacity, rows[u * periods + t]);
    }
    total
}

// The first period whose outputs are less than its demand.
pub fn find_unmet_demand(problem: Problem, rows: &[u16]) -> Option<Place>
    requires { Fitting problem rows.now }
    ensures { result ≡ place_found (place22 (view problem) (schedule_of problem rows.now)) }
{
    let periods = problem.periods;
    for t in 0..periods {
        if sum_outputs(problem.units, periods, rows, t) < problem.demand[t] {
            return Some(Place {
                unit: 0,
                period: t + 1,
            });
        }
    }
    None
}

// The first period in which the units that are on could not give its demand and its spare.
pub fn find_unmet_spare(problem: Problem, rows: &[u16]) -> Option<Place>
    requires { Fitting problem rows.now }
    ensures { result ≡ place_found (place23 (view problem) (schedule_of problem rows.now)) }
{
    let periods = problem.periods;
    let capacities = list_capacities(problem);
    let units = &capacities[..problem.units];
    for t in 0..periods {
        if sum_capacities(units, periods, rows, t) < problem.demand[t] + problem.spare[t] {
            return Some(Place {
                unit: 0,
                period: t + 1,
            });
        }
    }
    None
}
