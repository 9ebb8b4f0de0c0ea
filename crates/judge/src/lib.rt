// A schedule's judgement under a held problem: the first rule that it breaks, or its cost. Units and periods count from 0 in
// the code, and from 1 in what it answers.
#![tactic(auto)]

ghost use Rattle.std.specs.Prelude.{◌≡◌};
ghost use Rattle.model.specs.Held.{view};
ghost use Rattle.judge.specs.Judgement.{rule_kept, judgement};
ghost use Rattle.judge.specs.Rows.{schedule_of, Fitting};

mod breach;
mod cost;
mod limits;
mod loads;
mod place;
mod ramps;
mod tallies;
mod updown;

use crate::breach::Rule;
use crate::place::Place;
use model::arrays::Problem;

// A broken rule, by the number of its refusal, 21 to 25, and the place of its first breach.
// The rule is its number, as in the model's Breach: of an enum every contract would need the way back to it.
#[derive(Clone, Copy)]
pub struct Broken {
    pub number: u64,
    pub place: Place,
}

// Nothing, or the rule with this number as broken, where a place was found.
fn keep_rule(number: u64, first: Option<Place>) -> Result<(), Broken>
    ensures { result ≡ rule_kept number first }
{
    match first {
        Some(place) => Err(Broken { number, place }),
        None => Ok(()),
    }
}

// The cost of the schedule whose rows stand one after the other in rows, or the first rule that it breaks.
pub fn judge(problem: Problem, rows: &[u16]) -> Result<u64, Broken>
    requires { Fitting problem rows.now }
    ensures { result ≡ judgement (view problem) (schedule_of problem rows.now) }
{
    let tallies = tallies::tally(problem, rows);
    keep_rule(
        21,
        breach::first_breach(problem, rows, Rule::Limits, tallies.limits),
    )?;
    keep_rule(22, loads::find_unmet_demand(problem, rows))?;
    keep_rule(23, loads::find_unmet_spare(problem, rows))?;
    keep_rule(
        24,
        breach::first_breach(problem, rows, Rule::UpDown, tallies.updown),
    )?;
    keep_rule(
        25,
        breach::first_breach(problem, rows, Rule::Ramps, tallies.ramps),
    )?;
    Ok(tallies.cost)
}
