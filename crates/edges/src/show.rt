// The lines that the program prints.
use answer::Answer;
use docket::held::{CostBy, HeldBound};
use docket::{Docket, Lodged};
use leaves::short::Taken;
use model::figures::TreeFigures;
use refusal::Refusal;
use runs::question::Unanswered;
use std::fmt::{self, Write};

// The file number of standard output.
const STDOUT: i32 = 1;

// Standard output. What it does not take is let go, so that printing cannot fail; printing by the runtime can, and rests on more of the C library than `write`.
#[derive(Drop)]
struct Stdout;

impl fmt::Write for Stdout {
    fn write_str(&mut self, s: &str) -> fmt::Result {
        io::write_all(STDOUT, s.as_bytes());
        Ok(())
    }
}

// Prints a line that is no order.
pub fn misread(line: &[u8]) {
    for part in [b"not understood: ".as_slice(), line, b"\n"] {
        io::write_all(STDOUT, part);
    }
}

// Prints a line: the case's name, whose bytes need not be text, and what is shown.
pub fn print(name: &[u8], shown: impl fmt::Display + Drop) {
    io::write_all(STDOUT, name);
    let _ = writeln!(Stdout, ": {shown}");
}

// A value as a line shows it.
#[derive(Drop)]
pub struct Shown<'a, T>(pub &'a T);

// The answer to a report that was asked for, and the buffer after it.
#[derive(Drop)]
pub struct Filled<'a> {
    pub answer: Result<usize, Refusal>,
    pub buffer: &'a [u8],
}

// The answer to a text, and what the docket then holds.
impl fmt::Display for Shown<'_, Lodged> {
    fn fmt<W: fmt::Write>(&self, f: &mut fmt::Formatter<W>) -> fmt::Result {
        write!(f, "{}{}", Shown(&self.0.answer), Shown(&self.0.docket))
    }
}

// Number, line, unit, period.
impl fmt::Display for Shown<'_, Refusal> {
    fn fmt<W: fmt::Write>(&self, f: &mut fmt::Formatter<W>) -> fmt::Result {
        let r = self.0;
        write!(f, "refused,{},{},{},{}", r.number, r.line, r.unit, r.period)
    }
}

// The bound, the splits and the leaves.
impl fmt::Display for Shown<'_, TreeFigures> {
    fn fmt<W: fmt::Write>(&self, f: &mut fmt::Formatter<W>) -> fmt::Result {
        match self.0.bound {
            None => write!(f, "never")?,
            Some(z) => write!(f, "{z}")?,
        }
        write!(f, ",{},{}", self.0.splits, self.0.leaves)
    }
}

impl fmt::Display for Shown<'_, Answer> {
    fn fmt<W: fmt::Write>(&self, f: &mut fmt::Formatter<W>) -> fmt::Result {
        match self.0 {
            Answer::Refused(r) => write!(f, "{}", Shown(r)),
            Answer::TextHeld => write!(f, "held"),
            Answer::ScheduleHeld(cost) => write!(f, "held,{cost}"),
            Answer::SchedulePassed(cost) => write!(f, "passed,{cost}"),
            Answer::TreeHeld(figures) => write!(f, "held,{}", Shown(figures)),
            Answer::TreePassed(figures) => write!(f, "passed,{}", Shown(figures)),
        }
    }
}

// The held cost and its writer, or none.
impl fmt::Display for Shown<'_, Option<CostBy>> {
    fn fmt<W: fmt::Write>(&self, f: &mut fmt::Formatter<W>) -> fmt::Result {
        match self.0 {
            None => write!(f, "none"),
            Some(by) => write!(f, "{},{}", by.cost, by.writer),
        }
    }
}

// The held bound and its writer, or none.
impl fmt::Display for Shown<'_, HeldBound> {
    fn fmt<W: fmt::Write>(&self, f: &mut fmt::Formatter<W>) -> fmt::Result {
        match self.0 {
            HeldBound::Nothing => write!(f, "none"),
            HeldBound::Number(by) => write!(f, "{},{}", by.value, by.writer),
            HeldBound::Never(by) => write!(f, "never,{}", by.writer),
        }
    }
}

// The periods and the units of the problem, or none, what is held, and the first five outputs: of two units in two periods all four and the one after them.
impl fmt::Display for Shown<'_, Docket> {
    fn fmt<W: fmt::Write>(&self, f: &mut fmt::Formatter<W>) -> fmt::Result {
        let Docket {
            known,
            problem,
            held,
            rows: [a, b, c, d, e, ..],
        } = self.0;
        if *known {
            write!(f, "; problem={},{}", problem.periods, problem.units)?;
        } else {
            write!(f, "; problem=none")?;
        }
        write!(
            f,
            " cost={} bound={}",
            Shown(&held.cost),
            Shown(&held.bound)
        )?;
        write!(f, " rows={a},{b},{c},{d},{e}")
    }
}

impl fmt::Display for Filled<'_> {
    fn fmt<W: fmt::Write>(&self, f: &mut fmt::Formatter<W>) -> fmt::Result {
        match self.answer {
            Err(r) => write!(f, "{} [", Shown(&r))?,
            Ok(n) => write!(f, "{n} [")?,
        }
        for b in self.buffer {
            f.write_char(if *b == b'\n' { '/' } else { char::from(*b) })?;
        }
        write!(f, "]")
    }
}

// Whether the units are short or enough, and how many were taken.
impl fmt::Display for Shown<'_, Result<Taken, Unanswered>> {
    fn fmt<W: fmt::Write>(&self, f: &mut fmt::Formatter<W>) -> fmt::Result {
        match self.0 {
            Err(Unanswered::NoProblem) => write!(f, "no problem"),
            Err(Unanswered::Unfit) => write!(f, "unfit"),
            Ok(taken) => {
                let word = if taken.short { "short" } else { "enough" };
                write!(f, "{word},{}", taken.units)
            }
        }
    }
}
