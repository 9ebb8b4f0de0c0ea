// The docket: what it holds, what lodging a text answers, its report, and what it tells of the units that `short` takes and of the runs behind a price leaf's value.
#![tactic(auto)]

ghost use Rattle.std.specs.Prelude.{◌≡◌, OnOk};
ghost use Rattle.model.specs.Held.{Valid};
ghost use Rattle.docket.specs.Docket.{fresh_docket};
ghost use Rattle.docket.specs.Lodging.{lodge_of};
ghost use Rattle.docket.specs.Report.{report_of, buffer_of};
ghost use Rattle.docket.specs.Taking.{problem_asked, taken_of};
ghost use Rattle.docket.specs.Drafting.{runs_of};
ghost use Rattle.docket.specs.Forcing.{forced_of};

use crate::admission::Admission;
use crate::held::{Held, NOTHING_HELD};
use answer::Answer;
use forced::answering::answer_forced;
use leaves::short::Taken;
use model::arrays::Problem;
use refusal::Refusal;
use runs::drafting::{NoRuns, answer_runs};
use runs::question::Unanswered;

pub mod admission;
mod figures;
pub mod held;
mod holding;
mod lodging;
pub mod sound;
pub mod taking;

// A problem if one is known, what is held under it, and the held schedule's rows: row u from u times T on, zeros after the last.
#[derive(Clone, Copy)]
pub struct Docket {
    pub known: bool,
    pub problem: Problem,
    pub held: Held,
    pub rows: [u16; 1536],
}

// The docket after a text was lodged in it, and the answer to the text.
#[derive(Clone, Copy)]
pub struct Lodged {
    pub docket: Docket,
    pub answer: Answer,
}

// The docket as it was, and the answer to a report asked for.
#[derive(Clone, Copy)]
pub struct Reported {
    pub docket: Docket,
    pub answer: Result<usize, Refusal>,
}

impl Docket {
    // A docket that holds nothing.
    pub fn fresh() -> Docket
        ensures { result ≡ fresh_docket }
    {
        Docket {
            known: false,
            problem: Problem::blank(),
            held: NOTHING_HELD,
            rows: [0; 1536],
        }
    }

    // The docket after the text was lodged, and the answer to it; a docket that is not sound is taken for a fresh one, which knows no
    // problem.
    pub fn lodge(self, text: &[u8]) -> Lodged
        ensures { result ≡ lodge_of self text.now }
    {
        match admission::admit(sound::knows(self), text) {
            Err(refusal) => Lodged {
                docket: self,
                answer: Answer::Refused(refusal),
            },
            Ok(Admission::Problem) => lodging::lodge_problem(self, text),
            Ok(Admission::Schedule) => lodging::lodge_schedule(self, text),
            Ok(Admission::Tree) => lodging::lodge_tree(self, text),
        }
    }

    // The docket as it was, with how many bytes of the buffer from `at` on now hold the report; or with 43, and the buffer as it was. Of a
    // docket that is not sound the report is a fresh one's.
    pub fn report(self, buffer: &mut [u8], at: usize) -> Reported
        ensures answer { result ≡ report_of self buffer.old at }
        ensures bytes { buffer.new ≡ buffer_of self buffer.old at }
    {
        Reported {
            docket: self,
            answer: report::write_report(figures::figures_shown(self), buffer, at),
        }
    }

    // Nothing where a problem is known, which is then valid; else why a question has no answer. A docket that is not sound knows none.
    fn require_problem(self) -> Result<(), Unanswered>
        ensures known { result ≡ problem_asked self }
        ensures valid { OnOk result (Valid self.problem) }
    {
        if sound::knows(self) {
            Ok(())
        } else {
            Err(Unanswered::NoProblem)
        }
    }

    // Whether `short` holds in the period, counted from 1, and how many units it takes, where these statuses are fixed and this upper count stands: `most` is 0
    // for none and else one more than the count, unit u's statuses begin at u times the periods. A docket that is not sound knows no problem.
    pub fn units_taken(self, period: usize, most: usize, fixed: &[u8]) -> Result<Taken, Unanswered>
        ensures { result ≡ taken_of self period most fixed.now }
    {
        self.require_problem()?;
        taking::answer_taken(self.problem, period, most, fixed)
    }

    // The value of a price leaf with these multipliers under these statuses, with the units' runs in `rows`, unit u's from u times the periods on, and in `short` how far
    // they fall short of the demand of each period; or why there is none, and both are as they were. A docket that is not sound knows no problem.
    pub fn cheapest_runs(
        self,
        q: &[u64],
        s: &[u64],
        fixed: &[u8],
        rows: &mut [u64],
        short: &mut [u64],
    ) -> Result<i64, NoRuns>
        ensures answer { result ≡ (runs_of self q.now s.now fixed.now rows.old short.old).answer }
        ensures rows { rows.new ≡ (runs_of self q.now s.now fixed.now rows.old short.old).rows }
        ensures short { short.new ≡ (runs_of self q.now s.now fixed.now rows.old short.old).short }
    {
        self.require_problem()?;
        answer_runs(self.problem, q, s, fixed, rows, short)
    }

    // Each unit's least value at these multipliers under these statuses with the status of each period forced besides: in `values`, unit u's from u times twice the periods
    // on, off forced before on forced; `stuck` has 1 where the unit is then stuck, and 0 else. Or why there are no entries, and both are as they were. A docket that is not
    // sound knows no problem.
    pub fn forced_statuses(
        self,
        q: &[u64],
        s: &[u64],
        fixed: &[u8],
        values: &mut [i64],
        stuck: &mut [u8],
    ) -> Result<(), Unanswered>
        ensures answer { result ≡ (forced_of self q.now s.now fixed.now values.old stuck.old).answer }
        ensures values { values.new ≡ (forced_of self q.now s.now fixed.now values.old stuck.old).values }
        ensures stuck { stuck.new ≡ (forced_of self q.now s.now fixed.now values.old stuck.old).stuck }
    {
        self.require_problem()?;
        answer_forced(self.problem, q, s, fixed, values, stuck)
    }
}
