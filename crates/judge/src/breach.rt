// Where a rule of one unit in one period, 21, 24 or 25, is broken first.
ghost use Rattle.std.specs.Prelude.{◌≡◌, ◌<◌, ◌≤◌, length};
ghost use Rattle.model.specs.Held.{view};
ghost use Rattle.judge.specs.Counts.{all_breaches};
ghost use Rattle.judge.specs.Judgement.{place_found};
ghost use Rattle.judge.specs.Rows.{schedule_of, Fitting};
ghost use Rattle.judge.specs.Rule.{broken_by, place_of};

use crate::place::Place;
use crate::{limits, ramps, updown};
use model::arrays::Problem;
use model::unit::Unit;

// The rules of one unit in one period: 21, 24 and 25.
#[derive(Clone, Copy)]
pub enum Rule {
    Limits,
    UpDown,
    Ramps,
}

// Whether the row breaks the rule in period t.
// By a match and not by a closure: contracts name the rule.
fn breaks(rule: Rule, unit: Unit, row: &[u16], t: usize) -> bool
    requires { (t < length row.now) × (length row.now ≤ 48) }
    ensures { result ≡ broken_by rule t unit.generator row.now }
{
    match rule {
        Rule::Limits => limits::is_off_limits(unit.generator, row, t),
        Rule::UpDown => !updown::is_permitted(unit.generator, row, t),
        Rule::Ramps => ramps::is_off_ramp(unit, row, t),
    }
}

// The first period, and in it the first unit, that breaks the rule.
fn find_breach(problem: Problem, rows: &[u16], rule: Rule) -> Option<Place>
    requires { Fitting problem rows.now }
    ensures { result ≡ place_found (place_of rule (view problem) (schedule_of problem rows.now)) }
{
    let periods = problem.periods;
    let mut first = None;
    'search: for t in 0..periods {
        for u in 0..problem.units {
            let from = u * periods;
            let row = &rows[from..from + periods];
            let unit = Unit {
                generator: problem.generators[u],
            };
            if breaks(rule, unit, row, t) {
                first = Some(Place {
                    unit: u + 1,
                    period: t + 1,
                });
                break 'search;
            }
        }
    }
    first
}

// The first place that breaks the rule, which so many do: where none does it is not sought.
pub fn first_breach(problem: Problem, rows: &[u16], rule: Rule, places: u16) -> Option<Place>
    requires fitting { Fitting problem rows.now }
    requires counted { places ≡ all_breaches (broken_by rule) problem rows.now problem.units }
    ensures { result ≡ place_found (place_of rule (view problem) (schedule_of problem rows.now)) }
{
    if places == 0 {
        return None;
    }
    find_breach(problem, rows, rule)
}
