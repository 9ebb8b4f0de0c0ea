// The answer to a lodged text as 16 numbers.
ghost use Rattle.std.specs.Prelude.{◌≡◌, ◌∷◌, ◌≤◌, length};
ghost use Rattle.model.specs.Held.{pad};
ghost use Rattle.answer.specs.StatedAnswers.{its_bound, stated};
ghost use Rattle.answer.specs.AnswerNumbers.{bound_numbers, value_numbers, answer_numbers};

use crate::Answer;
use model::figures::TreeFigures;
use writer::Figure;

// What the first number says of an accepted text.
const HELD: u64 = 1;

const PASSED: u64 = 2;

// What the next one says of a text that is no tree.
const NO_VALUES: u64 = 0;

const COST: u64 = 1;

// The numbers, and zeros after them, 16 in all.
fn padded(first: &[u64]) -> [u64; 16]
    requires { length first.now ≤ 16 }
    ensures { result ≡ pad 0 16 first.now }
{
    let mut numbers = [0; 16];
    for (i, n) in first.iter().enumerate() {
        numbers[i] = *n;
    }
    numbers
}

// The two numbers of a bound.
fn bound_numbers(bound: Option<i64>) -> [u64; 2]
    ensures { result ≡ bound_numbers bound }
{
    match crate::figure_of_bound(bound) {
        Figure::Missing | Figure::Never => [4, 0],
        Figure::Number(n) => [2, n],
        Figure::Minus(n) => [3, n],
    }
}

// The numbers of a tree that is HELD or PASSED, with its figures.
fn tree_numbers(first: u64, figures: TreeFigures) -> [u64; 16]
    ensures { result ≡ pad 0 16 (first ∷ value_numbers (its_bound figures)) }
{
    let [kind, size] = bound_numbers(figures.bound);
    let splits = figures.splits as u64;
    let leaves = figures.leaves as u64;
    padded(&[first, kind, size, splits, leaves])
}

// The 16 numbers of the answer.
#[tactic(auto, unfolding(crate::specs::AnswerNumbers::answer_numbers))]
pub fn answer_numbers(answer: Answer) -> [u64; 16]
    ensures { result ≡ answer_numbers (stated answer) }
{
    match answer {
        Answer::Refused(r) => padded(&[
            0,
            0,
            r.number,
            r.line as u64,
            r.unit as u64,
            r.period as u64,
        ]),
        Answer::TextHeld => padded(&[HELD, NO_VALUES]),
        Answer::ScheduleHeld(c) => padded(&[HELD, COST, c]),
        Answer::SchedulePassed(c) => padded(&[PASSED, COST, c]),
        Answer::TreeHeld(f) => tree_numbers(HELD, f),
        Answer::TreePassed(f) => tree_numbers(PASSED, f),
    }
}
