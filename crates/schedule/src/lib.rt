// A schedule's text, read and judged under a held problem.
#![tactic(auto)]

ghost use Rattle.std.specs.Prelude.{◌≡◌, [], ◌+◌};
ghost use Rattle.model.specs.Held.{view, Valid};
ghost use Rattle.refusal.specs.Refusals.{refusal_of};
ghost use Rattle.judge.specs.Rows.{schedule_of};
ghost use Rattle.schedule.specs.Course.{runs_due, end_due};
ghost use Rattle.schedule.specs.Refusals.{written};
ghost use Rattle.schedule.specs.ReadAnswers.{IsSchedule, refused_by, ruled, in_arrays, schedule_read};
ghost use Rattle.text.specs.Forms.{fault_number};
ghost use Rattle.schedule.specs.Storing.{refused_read, read_from, Filled};

mod rows;

use model::arrays::Problem;
use model::ranges::Span;
use refusal::Refusal;
use text::{End, Fault};

// An accepted schedule's writer and its cost.
#[derive(Clone, Copy)]
pub struct Priced {
    pub writer: u64,
    pub cost: u64,
}

// What a schedule's text is found to be: its writer and cost, or its refusal; and the rows: row u from u times T on, zeros after the last; only zeros where
// the text is refused. The rows stand beside the answer and not in its Ok, since what they are beside a refusal is promised too (must-fail
// rows_kept_where_refused).
#[derive(Clone, Copy)]
pub struct ScheduleRead {
    pub answer: Result<Priced, Refusal>,
    pub rows: [u16; 1536],
}

// Where the second line starts: after kind=schedule and its byte 10.
const SECOND_LINE: usize = 14;

// What reading gives of a text that this number refuses.
fn refuse_text(number: u64, line: usize, unit: usize, period: usize) -> ScheduleRead
    ensures { result ≡ in_arrays (refused_by (refusal_of number line unit period)) }
{
    ScheduleRead {
        answer: Err(refusal::refuse(number, line, unit, period)),
        rows: [0; 1536],
    }
}

// What reading gives of a text by what is wrong with a line.
fn refuse_line(fault: Fault, line: usize) -> ScheduleRead
    ensures { result ≡ refused_read (fault_number fault) line }
{
    refuse_text(u64::from(fault), line, 0, 0)
}

// What reading gives of a text whose first line is kind=schedule.
pub fn read_schedule(problem: Problem, text: &[u8]) -> ScheduleRead
    requires { Valid problem × IsSchedule text.now }
    ensures { result ≡ schedule_read (view problem) text.now }
{
    match reader::read_writer(text, SECOND_LINE) {
        Ok(line) => read_from_runs(problem, text, line.next, line.writer),
        Err(fault) => refuse_line(fault, 2),
    }
}

// What reading gives of a text whose run lines start at `at`.
fn read_from_runs(problem: Problem, text: &[u8], at: usize, writer: u64) -> ScheduleRead
    requires { Valid problem }
    ensures { result ≡ read_from (view problem) text.now at 3 (runs_due problem.units (written writer [])) }
{
    let periods = problem.periods;
    let mut rows = [0u16; 1536];
    let mut values = [0u64; 48];
    let mut next = at;
    for k in 0..problem.units {
        let outputs = &mut values[..periods];
        match text::fill_row(
            text,
            next,
            b"run=",
            Span::OUTPUT.least,
            Span::OUTPUT.most,
            outputs,
        ) {
            Ok(after) => next = after,
            Err(fault) => return refuse_line(fault, k + 3),
        }
        rows::store_row(&mut rows, k * periods, &values[..periods]);
    }
    read_from_end(problem, text, next, writer, rows)
}

// What reading gives of a text whose end line starts at `at`, after lines that said these rows.
fn read_from_end(
    problem: Problem,
    text: &[u8],
    at: usize,
    writer: u64,
    rows: [u16; 1536],
) -> ScheduleRead
    requires { Valid problem × Filled problem.units problem.periods rows }
    ensures { result ≡ read_from (view problem) text.now at (problem.units + 3) (end_due (written writer (schedule_of problem rows))) }
{
    let line = problem.units + 3;
    match reader::read_end(text, at, b"end=schedule") {
        End::Missing => refuse_line(Fault::Malformed, line),
        End::Followed => refuse_line(Fault::Malformed, line + 1),
        End::Last => judge_rows(problem, writer, rows),
    }
}

// What reading gives of a text whose lines are all good and say these rows.
fn judge_rows(problem: Problem, writer: u64, rows: [u16; 1536]) -> ScheduleRead
    requires { Valid problem × Filled problem.units problem.periods rows }
    ensures { result ≡ in_arrays (ruled (view problem) (written writer (schedule_of problem rows))) }
{
    let n = problem.units * problem.periods;
    match judge::judge(problem, &rows[..n]) {
        Ok(cost) => ScheduleRead {
            answer: Ok(Priced { writer, cost }),
            rows,
        },
        Err(broken) => refuse_text(broken.number, 0, broken.place.unit, broken.place.period),
    }
}
