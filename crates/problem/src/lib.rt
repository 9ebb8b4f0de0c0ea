// A problem's text, read into a Problem.
#![tactic(auto)]

mod unit;

ghost use Rattle.std.specs.Prelude.{◌≡◌, ◌+◌, ◌≤◌, take};
ghost use Rattle.model.specs.Held.{held, view};
ghost use Rattle.refusal.specs.Refusals.{refusal_of};
ghost use Rattle.text.specs.Forms.{fault_number};
ghost use Rattle.problem.specs.Course.{units_due, demand_due, spare_due, end_due, fleet_due, no_units};
ghost use Rattle.problem.specs.ReadAnswers.{IsProblem, problem_read};
ghost use Rattle.problem.specs.Storing.{FilledTo, read_from};

use model::arrays::Problem;
use model::generator::Generator;
use model::ranges::Span;
use refusal::Refusal;
use text::{End, Fault};

// The start of the line after kind=problem and its byte 10.
const SECOND_LINE: usize = 13;

// The refusal of a text by what is wrong with a line.
fn refuse_line(fault: Fault, line: usize) -> Refusal
    ensures { result ≡ refusal_of (fault_number fault) line 0 0 }
{
    refusal::refuse(u64::from(fault), line, 0, 0)
}

// The problem that a text gives whose first line is kind=problem, or the text's refusal.
pub fn read_problem(s: &[u8]) -> Result<Problem, Refusal>
    requires { IsProblem s.now }
    ensures { result ≡ problem_read s.now }
{
    let row = text::read_row(
        s,
        SECOND_LINE,
        b"periods=",
        1,
        Span::HORIZON.least,
        Span::HORIZON.most,
    )
    .map_err(|fault| refuse_line(fault, 2))?;
    read_from_units(s, row.next, row.values[0] as usize)
}

// The problem of a text whose units line starts at `at`.
fn read_from_units(s: &[u8], at: usize, periods: usize) -> Result<Problem, Refusal>
    requires { periods ≤ 48 }
    ensures { result ≡ read_from s.now at 3 (units_due periods) }
{
    let row = text::read_row(s, at, b"units=", 1, Span::FLEET.least, Span::FLEET.most).map_err(
        |fault| refuse_line(fault, 3),
    )?;
    read_from_demand(s, row.next, periods, row.values[0] as usize)
}

// The problem of a text whose demand line starts at `at`.
fn read_from_demand(s: &[u8], at: usize, periods: usize, units: usize) -> Result<Problem, Refusal>
    requires { (periods ≤ 48) × (units ≤ 32) }
    ensures { result ≡ read_from s.now at 4 (demand_due periods units) }
{
    let row = text::read_row(
        s,
        at,
        b"demand=",
        periods,
        Span::LOAD.least,
        Span::LOAD.most,
    )
    .map_err(|fault| refuse_line(fault, 4))?;
    read_from_spare(s, row.next, periods, units, row.values)
}

// The problem of a text whose spare line starts at `at`.
fn read_from_spare(
    s: &[u8],
    at: usize,
    periods: usize,
    units: usize,
    demand: [u64; 48],
) -> Result<Problem, Refusal>
    requires { (periods ≤ 48) × ((units ≤ 32) × FilledTo periods demand) }
    ensures { result ≡ read_from s.now at 5 (spare_due periods units (take periods demand)) }
{
    let row = text::read_row(s, at, b"spare=", periods, Span::LOAD.least, Span::LOAD.most).map_err(
        |fault| refuse_line(fault, 5),
    )?;
    read_from_fleet(s, row.next, periods, units, demand, row.values)
}

// The problem of a text whose unit lines start at `at`.
fn read_from_fleet(
    s: &[u8],
    at: usize,
    periods: usize,
    units: usize,
    demand: [u64; 48],
    spare: [u64; 48],
) -> Result<Problem, Refusal>
    requires { (periods ≤ 48) × ((units ≤ 32) × (FilledTo periods demand × FilledTo periods spare)) }
    ensures { result ≡ read_from s.now at 6 (fleet_due units (no_units periods (take periods demand) (take periods spare))) }
{
    let mut generators = [Generator::blank(); 32];
    let mut next = at;
    for k in 0..units {
        let line = k + 6;
        let row = unit::read_unit(s, next).map_err(|fault| refuse_line(fault, line))?;
        generators[k] = row.generator;
        next = row.next;
    }
    let problem = Problem {
        periods,
        units,
        demand,
        spare,
        generators,
    };
    read_from_end(s, next, units + 6, problem)
}

// The problem of a text whose end line, with the number `line`, starts at `at`.
fn read_from_end(s: &[u8], at: usize, line: usize, problem: Problem) -> Result<Problem, Refusal>
    requires { (line ≤ 38) × (held (view problem) ≡ problem) }
    ensures { result ≡ read_from s.now at line (end_due (view problem)) }
{
    match reader::read_end(s, at, b"end=problem") {
        End::Missing => Err(refuse_line(Fault::Malformed, line)),
        End::Followed => Err(refuse_line(Fault::Malformed, line + 1)),
        End::Last => Ok(problem),
    }
}
