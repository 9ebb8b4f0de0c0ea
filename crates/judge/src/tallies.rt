// One pass over the units: in how many places each of 21, 24 and 25 is broken, and what the schedule costs.
ghost use Rattle.std.specs.Prelude.{◌≡◌, ◌≤◌, length};
ghost use Rattle.model.specs.Ranges.{All, GoodOutput};
ghost use Rattle.judge.specs.Rows.{Fitting};
ghost use Rattle.judge.specs.Walk.{Room, one_further, walk_to};
ghost use Rattle.judge.specs.Tallied.{row_tallies, tallies};

use crate::{cost, limits, ramps, updown};
use model::arrays::Problem;
use model::unit::Unit;

// Where a walk along a row's statuses stands: the status last passed and the periods just spent in it, how many statuses were
// not permitted, and what the starts and stops cost.
#[derive(Clone, Copy)]
struct Walk {
    on: bool,
    spent: usize,
    barred: u16,
    cost: u64,
}

// The places at which a row, or a schedule, breaks 21, 24 and 25, and its cost.
#[derive(Clone, Copy)]
pub struct Tallies {
    pub limits: u16,
    pub updown: u16,
    pub ramps: u16,
    pub cost: u64,
}

// The walk one status further.
fn pass(unit: Unit, walk: Walk, after: bool) -> Walk
    requires { Room walk }
    ensures { result ≡ one_further unit.generator walk after }
{
    let g = unit.generator;
    if walk.on == after {
        return Walk {
            spent: walk.spent + 1,
            ..walk
        };
    }
    Walk {
        on: after,
        spent: 1,
        barred: walk.barred + updown::count_barred(g, walk.on, walk.spent),
        cost: walk.cost + cost::charge_switch(g, walk.on, walk.spent),
    }
}

// The walk along a whole row, from Tini on.
fn walk_row(unit: Unit, row: &[u16]) -> Walk
    requires { length row.now ≤ 48 }
    ensures { result ≡ walk_to unit.generator row.now (length row.now) }
{
    let mut walk = Walk {
        on: unit.generator.on,
        spent: unit.generator.since,
        barred: 0,
        cost: 0,
    };
    for output in row {
        walk = pass(unit, walk, *output != 0);
    }
    walk
}

// The tallies of one unit's row.
fn tally_row(unit: Unit, row: &[u16]) -> Tallies
    requires { (length row.now ≤ 48) × (1 ≤ length row.now) × All GoodOutput row.now }
    ensures { result ≡ row_tallies (length row.now) unit.generator row.now }
{
    let walk = walk_row(unit, row);
    Tallies {
        limits: limits::count_off_limits(unit.generator, row),
        updown: walk.barred,
        ramps: ramps::count_off_ramp(unit, row),
        cost: cost::sum_fuel(unit.generator, row) + walk.cost,
    }
}

// The tallies of the schedule.
pub fn tally(problem: Problem, rows: &[u16]) -> Tallies
    requires { Fitting problem rows.now }
    ensures { result ≡ tallies problem rows.now }
{
    let periods = problem.periods;
    let mut all = Tallies {
        limits: 0,
        updown: 0,
        ramps: 0,
        cost: 0,
    };
    for u in 0..problem.units {
        let from = u * periods;
        let unit = Unit {
            generator: problem.generators[u],
        };
        let row = tally_row(unit, &rows[from..from + periods]);
        all.limits += row.limits;
        all.updown += row.updown;
        all.ramps += row.ramps;
        all.cost += row.cost;
    }
    all
}
