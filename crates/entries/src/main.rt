// Prints what a docket tells of forced statuses in cases that were worked out by hand: the answer, then the values, unit by unit and period by period, off forced before on
// forced, and which of the entries say stuck. Where none are written these are the sevens that were lent. The file stdout beside src/ has the lines; docs/DECISIONS.md, 134
// to 137, says what is asked.
#![tactic(auto)]

use docket::Docket;
use runs::question::Unanswered;
use std::fmt::{self, Write};

// The file number of standard output.
const STDOUT: i32 = 1;

// Standard output. What it does not take is let go, so that printing cannot fail; printing by the runtime can, and rests on more of the C library than `write`.
// What this program has like crates/drafts stays in both: the crates that both stand on are linked into hosts, and print nothing.
#[derive(Drop)]
struct Stdout;

impl fmt::Write for Stdout {
    fn write_str(&mut self, s: &str) -> fmt::Result {
        io::write_all(STDOUT, s.as_bytes());
        Ok(())
    }
}

// Document 01's problem.
const PLANT: &[u8] =
    b"kind=problem\nperiods=2\nunits=2\ndemand=60,100\nspare=10,10\nunit=100,10,0,20,80,2,2,3,30,30,50,90,1,5,60\nunit=40,14,0,10,50,1,1,-2,50,50,20,60,0,0,0\nend=problem\n";

// Its first unit twice.
const TWINS: &[u8] =
    b"kind=problem\nperiods=2\nunits=2\ndemand=60,100\nspare=10,10\nunit=100,10,0,20,80,2,2,3,30,30,50,90,1,5,60\nunit=100,10,0,20,80,2,2,3,30,30,50,90,1,5,60\nend=problem\n";

// What is asked of a docket: under which prices, on energy and on reserve, and with which statuses fixed.
#[derive(Clone, Copy)]
struct Question<'a> {
    prices: &'a [u64],
    reserves: &'a [u64],
    fixed: &'a [u8],
}

// A question about two units over two periods: no price, and every status free.
const FREE: Question<'static> = Question {
    prices: &[0, 0],
    reserves: &[0, 0],
    fixed: &[0, 0, 0, 0],
};

// The answer, as a line shows it.
#[derive(Drop)]
struct Told(Result<(), Unanswered>);

impl fmt::Display for Told {
    fn fmt<W: fmt::Write>(&self, f: &mut fmt::Formatter<W>) -> fmt::Result {
        match self.0 {
            Ok(()) => write!(f, "found"),
            Err(Unanswered::NoProblem) => write!(f, "no problem"),
            Err(Unanswered::Unfit) => write!(f, "unfit"),
        }
    }
}

// Values or bytes, each behind a space.
#[derive(Drop)]
struct Row<'a, T>(&'a [T]);

impl<T: fmt::Display> fmt::Display for Row<'_, T> {
    fn fmt<W: fmt::Write>(&self, f: &mut fmt::Formatter<W>) -> fmt::Result {
        for value in self.0 {
            write!(f, " {value}")?;
        }
        Ok(())
    }
}

// Asks with this room for values and bytes, and prints a line.
fn tell(name: &str, docket: Docket, question: Question<'_>, values: &mut [i64], stuck: &mut [u8]) {
    let Question {
        prices,
        reserves,
        fixed,
    } = question;
    let answer = docket.forced_statuses(prices, reserves, fixed, values, stuck);
    let _ = writeln!(
        Stdout,
        "{name}: {}; values{}; stuck{}",
        Told(answer),
        Row(values),
        Row(stuck)
    );
}

// Asks about two units over two periods, and prints a line.
fn tell_two(name: &str, docket: Docket, question: Question<'_>) {
    tell(name, docket, question, &mut [7; 8], &mut [7; 8]);
}

// Asks about a unit over three periods without prices on reserve, and prints a line.
fn tell_unit(name: &str, docket: Docket, prices: &[u64], fixed: &[u8]) {
    let question = Question {
        prices,
        reserves: &[0, 0, 0],
        fixed,
    };
    tell(name, docket, question, &mut [7; 6], &mut [7; 6]);
}

// A docket after the text was lodged in a fresh one.
fn holding(text: &[u8]) -> Docket {
    Docket::fresh().lodge(text).docket
}

// Document 01's problem.
fn tell_plant() {
    let plant = holding(PLANT);
    let low = Question {
        prices: &[10, 14],
        ..FREE
    };
    tell_two("the plant at 10 and 14", plant, low);
    let reserve = Question {
        reserves: &[1, 1],
        ..low
    };
    tell_two("with reserve at 1", plant, reserve);
    let on = Question {
        fixed: &[0, 0, 0, 2],
        ..low
    };
    tell_two("with unit 2 on in 2", plant, on);
    let highest = Question {
        prices: &[1_000_000_000, 1_000_000_000],
        ..FREE
    };
    tell_two("at the highest prices", plant, highest);
}

// Starts: up and down times, hot and cold.
fn tell_starts() {
    let late = holding(
        b"kind=problem\nperiods=3\nunits=1\ndemand=1,1,1\nspare=0,0,0\nunit=0,0,0,1,1,1,3,-1,10,10,0,0,0,0,0\nend=problem\n",
    );
    tell_unit("a unit that may start in 3", late, &[3, 3, 3], &[0, 0, 0]);
    let cold = holding(
        b"kind=problem\nperiods=3\nunits=1\ndemand=1,1,1\nspare=0,0,0\nunit=0,0,0,1,1,1,1,-1,10,10,2,5,1,0,0\nend=problem\n",
    );
    tell_unit("hot after two", cold, &[0, 0, 0], &[1, 0, 0]);
    tell_unit("cold after three", cold, &[0, 0, 0], &[1, 1, 0]);
    let long = holding(
        b"kind=problem\nperiods=6\nunits=1\ndemand=1,1,1,1,1,1\nspare=0,0,0,0,0,0\nunit=0,0,0,1,1,1,1,1,10,10,2,5,1,0,1\nend=problem\n",
    );
    let off = Question {
        prices: &[0; 6],
        reserves: &[0; 6],
        fixed: &[1, 1, 1, 1, 1, 0],
    };
    tell("cold after five", long, off, &mut [7; 12], &mut [7; 12]);
    let years = holding(
        b"kind=problem\nperiods=2\nunits=1\ndemand=1,1\nspare=0,0\nunit=0,0,0,1,1,1,1,-1000,10,10,2,5,1,0,0\nend=problem\n",
    );
    let free = Question {
        fixed: &[0, 0],
        ..FREE
    };
    tell(
        "cold after a thousand",
        years,
        free,
        &mut [7; 4],
        &mut [7; 4],
    );
}

// Stuck units.
fn tell_stuck() {
    let twins = holding(TWINS);
    let both = Question {
        fixed: &[1, 2, 1, 2],
        ..FREE
    };
    tell_two("both units stuck", twins, both);
    let second = Question {
        fixed: &[0, 0, 1, 2],
        ..FREE
    };
    tell_two("the second stuck", twins, second);
    tell_lengths(twins);
    tell_numbers(twins);
}

// Lengths that do not fit two units over two periods.
fn tell_lengths(twins: Docket) {
    let price = Question {
        prices: &[0],
        ..FREE
    };
    tell_two("a price too few", twins, price);
    let reserve = Question {
        reserves: &[0, 0, 0],
        ..FREE
    };
    tell_two("a reserve price more", twins, reserve);
    let status = Question {
        fixed: &[0, 0, 0],
        ..FREE
    };
    tell_two("a status too few", twins, status);
    tell("a value too few", twins, FREE, &mut [7; 7], &mut [7; 8]);
    tell("a byte too many", twins, FREE, &mut [7; 8], &mut [7; 9]);
}

// Numbers that no price and no status has.
fn tell_numbers(twins: Docket) {
    let price = Question {
        prices: &[0, 1_000_000_001],
        ..FREE
    };
    tell_two("a price above", twins, price);
    let reserve = Question {
        reserves: &[0, 1_000_000_001],
        ..FREE
    };
    tell_two("a reserve price above", twins, reserve);
    let status = Question {
        fixed: &[1, 2, 0, 3],
        ..FREE
    };
    tell_two("no status", twins, status);
}

fn main() {
    tell_plant();
    tell_starts();
    tell_stuck();
    tell_two("before any problem", Docket::fresh(), FREE);
}
