// What is answered to a question about forced statuses.
ghost use Rattle.std.specs.Prelude.{◌≡◌, ◌≤◌};
ghost use Rattle.model.specs.Held.{view, Valid};
ghost use Rattle.forced.specs.Answers.{fits_in, told_under};

use crate::units::write_forced;
use layout::plan::Plan;
use layout::ranking::lay_out_ranked;
use model::arrays::Problem;
use runs::question::{Unanswered, is_asked};

// Whether the question fits so many units in so many periods: its multipliers, its statuses, and the room for values and for bytes.
fn is_fit(
    periods: usize,
    units: usize,
    q: &[u64],
    s: &[u64],
    fixed: &[u8],
    values: usize,
    stuck: usize,
) -> bool
    requires { (periods ≤ 48) × (units ≤ 32) }
    ensures { result ≡ fits_in periods units q.now s.now fixed.now values stuck }
{
    let entries = 2 * units * periods;
    values == entries && stuck == entries && is_asked(periods, units, q, s, fixed)
}

// The entries written under the problem; or why there are none, and `values` and `stuck` are as they were. A program in C lends the two as they are.
pub fn answer_forced(
    problem: Problem,
    q: &[u64],
    s: &[u64],
    fixed: &[u8],
    values: &mut [i64],
    stuck: &mut [u8],
) -> Result<(), Unanswered>
    requires { Valid problem }
    ensures answer { result ≡ (told_under (view problem) q.now s.now fixed.now values.old stuck.old).answer }
    ensures values { values.new ≡ (told_under (view problem) q.now s.now fixed.now values.old stuck.old).values }
    ensures stuck { stuck.new ≡ (told_under (view problem) q.now s.now fixed.now values.old stuck.old).stuck }
{
    let fits = is_fit(
        problem.periods,
        problem.units,
        q,
        s,
        fixed,
        values.len(),
        stuck.len(),
    );
    if !fits {
        return Err(Unanswered::Unfit);
    }
    let numbers = lay_out_ranked(problem);
    write_forced(Plan::of(&numbers), q, s, fixed, values, stuck);
    Ok(())
}
