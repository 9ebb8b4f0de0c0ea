// A question about a price leaf: why it has no answer, and whether its multipliers and statuses fit a problem.
ghost use Rattle.std.specs.Prelude.{◌≡◌, ◌≤◌};
ghost use Rattle.model.specs.Ranges.{every};
ghost use Rattle.runs.specs.Questions.{is_price, statuses_in, asked_in};

use leaves::marks::are_statuses;
use model::ranges::Span;

// Why a question about the problem has no answer: no problem is known, or the question does not fit it.
#[derive(Clone, Copy)]
pub enum Unanswered {
    NoProblem,
    Unfit,
}

// Whether every number is a multiplier.
pub fn are_prices(prices: &[u64]) -> bool
    ensures { result ≡ every is_price prices.now }
{
    prices.iter().all(|price| *price <= Span::PRICE.most)
}

// Whether there are statuses for so many units in so many periods.
pub fn has_statuses(periods: usize, units: usize, fixed: &[u8]) -> bool
    requires { (periods ≤ 48) × (units ≤ 32) }
    ensures { result ≡ statuses_in periods units fixed.now }
{
    fixed.len() == units * periods && are_statuses(fixed)
}

// Whether there are multipliers of either kind for so many periods, and statuses for so many units in them.
pub fn is_asked(periods: usize, units: usize, q: &[u64], s: &[u64], fixed: &[u8]) -> bool
    requires { (periods ≤ 48) × (units ≤ 32) }
    ensures { result ≡ asked_in periods units q.now s.now fixed.now }
{
    q.len() == periods
        && s.len() == periods
        && are_prices(q)
        && are_prices(s)
        && has_statuses(periods, units, fixed)
}
