// Prints what a docket tells of the runs of price leaves that were worked out by hand: the answer, then the outputs, a unit's after another's, and the shortfalls. Where no
// runs are found these are the sevens that were lent. The file stdout beside src/ has the lines; docs/DECISIONS.md, 126 to 129, says what is asked.
#![tactic(auto)]

use docket::Docket;
use runs::drafting::NoRuns;
use runs::question::Unanswered;
use std::fmt::{self, Write};

// The file number of standard output.
const STDOUT: i32 = 1;

// Standard output. What it does not take is let go, so that printing cannot fail; printing by the runtime can, and rests on more of the C library than `write`.
// What this program has like crates/entries stays in both: the crates that both stand on are linked into hosts, and print nothing.
#[derive(Drop)]
struct Stdout;

impl fmt::Write for Stdout {
    fn write_str(&mut self, s: &str) -> fmt::Result {
        io::write_all(STDOUT, s.as_bytes());
        Ok(())
    }
}

// Document 01's problem.
const PLANT: &[u8] =
    b"kind=problem\nperiods=2\nunits=2\ndemand=60,100\nspare=10,10\nunit=100,10,0,20,80,2,2,3,30,30,50,90,1,5,60\nunit=40,14,0,10,50,1,1,-2,50,50,20,60,0,0,0\nend=problem\n";

// Its first unit twice.
const TWINS: &[u8] =
    b"kind=problem\nperiods=2\nunits=2\ndemand=60,100\nspare=10,10\nunit=100,10,0,20,80,2,2,3,30,30,50,90,1,5,60\nunit=100,10,0,20,80,2,2,3,30,30,50,90,1,5,60\nend=problem\n";

// What is asked of a docket: under which prices, on energy and on reserve, and with which statuses fixed.
#[derive(Clone, Copy)]
struct Question<'a> {
    prices: &'a [u64],
    reserves: &'a [u64],
    fixed: &'a [u8],
}

// A question about two units over two periods: no price, and every status free.
const FREE: Question<'static> = Question {
    prices: &[0, 0],
    reserves: &[0, 0],
    fixed: &[0, 0, 0, 0],
};

// The answer, as a line shows it.
#[derive(Drop)]
struct Told(Result<i64, NoRuns>);

impl fmt::Display for Told {
    fn fmt<W: fmt::Write>(&self, f: &mut fmt::Formatter<W>) -> fmt::Result {
        match self.0 {
            Ok(value) => write!(f, "found {value}"),
            Err(NoRuns::Question(Unanswered::NoProblem)) => write!(f, "no problem"),
            Err(NoRuns::Question(Unanswered::Unfit)) => write!(f, "unfit"),
            Err(NoRuns::Stuck(unit)) => write!(f, "stuck {unit}"),
        }
    }
}

// Numbers, each behind a space.
#[derive(Drop)]
struct Row<'a>(&'a [u64]);

impl fmt::Display for Row<'_> {
    fn fmt<W: fmt::Write>(&self, f: &mut fmt::Formatter<W>) -> fmt::Result {
        for number in self.0 {
            write!(f, " {number}")?;
        }
        Ok(())
    }
}

// Asks with this room for outputs and shortfalls, and prints a line.
fn tell(name: &str, docket: Docket, question: Question<'_>, rows: &mut [u64], short: &mut [u64]) {
    let Question {
        prices,
        reserves,
        fixed,
    } = question;
    let answer = docket.cheapest_runs(prices, reserves, fixed, rows, short);
    let _ = writeln!(
        Stdout,
        "{name}: {}; runs{}; short{}",
        Told(answer),
        Row(rows),
        Row(short)
    );
}

// Asks about two units over two periods, and prints a line.
fn tell_two(name: &str, docket: Docket, question: Question<'_>) {
    tell(name, docket, question, &mut [7; 4], &mut [7; 2]);
}

// Asks about a unit over three periods without prices on reserve and with every status free, and prints a line.
fn tell_unit(name: &str, docket: Docket, prices: &[u64]) {
    let question = Question {
        prices,
        reserves: &[0, 0, 0],
        fixed: &[0, 0, 0],
    };
    tell(name, docket, question, &mut [7; 3], &mut [7; 3]);
}

// A docket after the text was lodged in a fresh one.
fn holding(text: &[u8]) -> Docket {
    Docket::fresh().lodge(text).docket
}

// Document 01's problem.
fn tell_plant() {
    let plant = holding(PLANT);
    let low = Question {
        prices: &[10, 14],
        ..FREE
    };
    tell_two("the plant at 10 and 14", plant, low);
    let reserve = Question {
        reserves: &[1, 1],
        ..low
    };
    tell_two("with reserve at 1", plant, reserve);
    let on = Question {
        fixed: &[0, 0, 0, 2],
        ..low
    };
    tell_two("with unit 2 on in period 2", plant, on);
    let higher = Question {
        prices: &[12, 18],
        ..FREE
    };
    tell_two("at 12 and 18", plant, higher);
    let highest = Question {
        prices: &[1_000_000_000, 1_000_000_000],
        ..FREE
    };
    tell_two("at the highest prices", plant, highest);
}

// Ties.
fn tell_ties() {
    let even = holding(
        b"kind=problem\nperiods=3\nunits=1\ndemand=1,5,1\nspare=0,0,0\nunit=0,5,0,2,4,1,1,1,10,10,0,0,0,0,2\nend=problem\n",
    );
    tell_unit("off where on is no better", even, &[5, 7, 5]);
    let start = holding(
        b"kind=problem\nperiods=3\nunits=1\ndemand=1,5,1\nspare=0,0,0\nunit=0,5,0,2,4,1,1,1,10,10,3,3,0,0,2\nend=problem\n",
    );
    tell_unit("where a start costs 3", start, &[5, 7, 5]);
    let stop = holding(
        b"kind=problem\nperiods=3\nunits=1\ndemand=1,5,1\nspare=0,0,0\nunit=0,5,0,2,4,1,1,1,10,10,0,0,0,1,2\nend=problem\n",
    );
    tell_unit("where a stop costs 1", stop, &[5, 5, 5]);
    let curve = holding(
        b"kind=problem\nperiods=1\nunits=1\ndemand=5\nspare=0\nunit=0,2,1,2,6,1,1,-1,10,10,0,0,0,0,0\nend=problem\n",
    );
    let on = Question {
        prices: &[9],
        reserves: &[0],
        fixed: &[2],
    };
    tell("the smaller of two outputs", curve, on, &mut [7], &mut [7]);
    let late = holding(
        b"kind=problem\nperiods=3\nunits=1\ndemand=1,1,1\nspare=0,0,0\nunit=10,0,0,1,1,1,2,1,10,10,0,0,0,0,1\nend=problem\n",
    );
    tell_unit("off in the first period that differs", late, &[15, 1, 15]);
}

// Questions without runs.
fn tell_none() {
    tell_two("before any problem", Docket::fresh(), FREE);
    let twins = holding(TWINS);
    let both = Question {
        fixed: &[1, 2, 1, 2],
        ..FREE
    };
    tell_two("both units stuck", twins, both);
    let second = Question {
        fixed: &[0, 0, 1, 2],
        ..FREE
    };
    tell_two("the second stuck", twins, second);
    tell_lengths(twins);
    tell_values(twins);
}

// Lengths that do not fit two units over two periods.
fn tell_lengths(twins: Docket) {
    let price = Question {
        prices: &[0],
        ..FREE
    };
    tell_two("a price too few", twins, price);
    let reserve = Question {
        reserves: &[0, 0, 0],
        ..FREE
    };
    tell_two("a reserve price too many", twins, reserve);
    let status = Question {
        fixed: &[0, 0, 0],
        ..FREE
    };
    tell_two("a status too few", twins, status);
    let mut rows = [7; 3];
    tell(
        "room for an output too few",
        twins,
        FREE,
        &mut rows,
        &mut [7; 2],
    );
    let mut short = [7; 3];
    tell(
        "room for a shortfall too many",
        twins,
        FREE,
        &mut [7; 4],
        &mut short,
    );
}

// Values that no price and no status has.
fn tell_values(twins: Docket) {
    let price = Question {
        prices: &[0, 1_000_000_001],
        ..FREE
    };
    tell_two("a price above the highest", twins, price);
    let reserve = Question {
        reserves: &[1_000_000_001, 0],
        ..FREE
    };
    tell_two("a reserve price above the highest", twins, reserve);
    let status = Question {
        fixed: &[1, 2, 0, 3],
        ..FREE
    };
    tell_two("a status that is none, and stuck", twins, status);
}

fn main() {
    tell_plant();
    tell_ties();
    tell_none();
}
