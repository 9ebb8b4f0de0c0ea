// Lodging a text of each kind.
ghost use Rattle.std.specs.Prelude.{◌≡◌, ◌≤◌, length};
ghost use Rattle.model.specs.Held.{view, Valid};
ghost use Rattle.problem.specs.ReadAnswers.{IsProblem, problem_read};
ghost use Rattle.schedule.specs.ReadAnswers.{IsSchedule, schedule_read};
ghost use Rattle.tree.specs.Course.{IsTree};
ghost use Rattle.tree.specs.ReadAnswers.{tree_read};
ghost use Rattle.docket.specs.HoldingAnswers.{hold_problem, hold_schedule, hold_tree};

use crate::{Docket, Lodged, holding};

// The docket after a problem's text, and the answer to it.
pub fn lodge_problem(docket: Docket, text: &[u8]) -> Lodged
    requires { IsProblem text.now }
    ensures { result ≡ hold_problem docket (problem_read text.now) }
{
    holding::hold_problem(docket, problem::read_problem(text))
}

// The docket after a schedule's text, read under the problem that it knows, and the answer to it.
pub fn lodge_schedule(docket: Docket, text: &[u8]) -> Lodged
    requires valid { Valid docket.problem }
    requires schedule { IsSchedule text.now }
    ensures { result ≡ hold_schedule docket (schedule_read (view docket.problem) text.now).answer (schedule_read (view docket.problem) text.now).rows }
{
    let read = schedule::read_schedule(docket.problem, text);
    holding::hold_schedule(docket, read.answer, read.rows)
}

// The docket after a tree's text, read under the problem that it knows, and the answer to it.
pub fn lodge_tree(docket: Docket, text: &[u8]) -> Lodged
    requires valid { Valid docket.problem }
    requires text_len_bound { length text.now ≤ 1048576 }
    requires tree { IsTree text.now }
    ensures { result ≡ hold_tree docket (tree_read (view docket.problem) text.now) }
{
    holding::hold_tree(docket, tree::read_tree(docket.problem, text))
}
