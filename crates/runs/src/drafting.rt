// What is answered to a question about the runs of a price leaf.
ghost use Rattle.std.specs.Prelude.{◌≡◌, true, ◌≤◌, length};
ghost use Rattle.model.specs.Held.{view, Valid};
ghost use Rattle.layout.specs.Plans.{instance_of};
ghost use Rattle.runs.specs.Drafts.{fits_in, fits, drafted, draft_under};
ghost use Rattle.runs.specs.declared.drafting.NoRuns.TheVariants.{Question};

pub use crate::question::are_prices;
use crate::question::{Unanswered, is_asked};
use crate::short::write_short;
use crate::units::{first_stuck, write_runs};
use layout::plan::Plan;
use layout::ranking::lay_out_ranked;
use leaves::price::leaf_value;
use model::arrays::Problem;

// Why there are no runs: the question has no answer, or units are stuck, of which this is the first, from 1.
#[derive(Clone, Copy)]
pub enum NoRuns {
    Question(Unanswered),
    Stuck(usize),
}

// A question without an answer has no runs, for the same reason.
impl From<Unanswered> for NoRuns {
    ghost from_gives = { λ why e. e ≡ Question why };

    // The reason, kept.
    fn from(why: Unanswered) -> NoRuns {
        NoRuns::Question(why)
    }
}

// Whether the question fits so many units in so many periods: its multipliers, its statuses, and the room for outputs and for shortfalls.
fn is_fit(
    periods: usize,
    units: usize,
    q: &[u64],
    s: &[u64],
    fixed: &[u8],
    outputs: usize,
    shorts: usize,
) -> bool
    requires { (periods ≤ 48) × (units ≤ 32) }
    ensures { result ≡ fits_in periods units q.now s.now fixed.now outputs shorts }
{
    shorts == periods && outputs == units * periods && is_asked(periods, units, q, s, fixed)
}

// The draft of a leaf that fits: the leaf's value, with the runs and the shortfalls written, or a stuck unit.
fn draft(
    plan: Plan,
    q: &[u64],
    s: &[u64],
    fixed: &[u8],
    rows: &mut [u64],
    short: &mut [u64],
) -> Result<i64, NoRuns>
    requires { fits (instance_of plan) q.now s.now fixed.now (length rows.old) (length short.old) ≡ true }
    ensures answer { result ≡ (drafted (instance_of plan.entry) q.now s.now fixed.now rows.old short.old).answer }
    ensures rows { rows.new ≡ (drafted (instance_of plan.entry) q.now s.now fixed.now rows.old short.old).rows }
    ensures short { short.new ≡ (drafted (instance_of plan.entry) q.now s.now fixed.now rows.old short.old).short }
{
    match leaf_value(plan, q, s, fixed) {
        None => Err(NoRuns::Stuck(first_stuck(plan, fixed) + 1)),
        Some(value) => {
            write_runs(plan, q, s, fixed, rows);
            write_short(plan, rows, short);
            Ok(value)
        }
    }
}

// What is answered under the problem; where there are no runs `rows` and `short` are as they were.
pub fn answer_runs(
    problem: Problem,
    q: &[u64],
    s: &[u64],
    fixed: &[u8],
    rows: &mut [u64],
    short: &mut [u64],
) -> Result<i64, NoRuns>
    requires { Valid problem }
    ensures answer { result ≡ (draft_under (view problem) q.now s.now fixed.now rows.old short.old).answer }
    ensures rows { rows.new ≡ (draft_under (view problem) q.now s.now fixed.now rows.old short.old).rows }
    ensures short { short.new ≡ (draft_under (view problem) q.now s.now fixed.now rows.old short.old).short }
{
    let fits = is_fit(
        problem.periods,
        problem.units,
        q,
        s,
        fixed,
        rows.len(),
        short.len(),
    );
    if !fits {
        return Err(NoRuns::Question(Unanswered::Unfit));
    }
    let numbers = lay_out_ranked(problem);
    draft(Plan::of(&numbers), q, s, fixed, rows, short)
}
