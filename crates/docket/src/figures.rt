// What a report shows of what is held.
ghost use Rattle.std.specs.Prelude.{◌≡◌, true, ◌<◌, pos, ◌-ℤ◌};
ghost use Rattle.writer.specs.Written.{figure_of};
ghost use Rattle.docket.specs.Docket.{small_number, small_cost, small_bound, size_limit};
ghost use Rattle.docket.specs.Lodging.{trusted};
ghost use Rattle.docket.specs.Report.{cost_shown, cost_writer_shown, bound_shown, bound_writer_shown, gap_shown, figures_of};

use crate::held::{CostBy, Held, HeldBound, NOTHING_HELD};
use crate::{Docket, sound};
use report::Figures;
use writer::Figure;

// The held cost.
fn cost_figure(cost: Option<CostBy>) -> Figure
    ensures { result ≡ cost_shown cost }
{
    match cost {
        None => Figure::Missing,
        Some(n) => Figure::Number(n.cost),
    }
}

// The held cost's writer.
// Beside the one before it: which of two numbers is shown is all that either says.
fn cost_writer_figure(cost: Option<CostBy>) -> Figure
    ensures { result ≡ cost_writer_shown cost }
{
    match cost {
        None => Figure::Missing,
        Some(n) => Figure::Number(n.writer),
    }
}

// The held bound.
fn bound_figure(bound: HeldBound) -> Figure
    ensures { result ≡ bound_shown bound }
{
    match bound {
        HeldBound::Nothing => Figure::Missing,
        HeldBound::Number(n) => Figure::from(n.value),
        HeldBound::Never(_) => Figure::Never,
    }
}

// The held bound's writer.
fn bound_writer_figure(bound: HeldBound) -> Figure
    ensures { result ≡ bound_writer_shown bound }
{
    match bound {
        HeldBound::Nothing => Figure::Missing,
        HeldBound::Number(n) => Figure::Number(n.writer),
        HeldBound::Never(n) => Figure::Number(n.writer),
    }
}

// Cost minus value.
fn difference_figure(cost: u64, value: i64) -> Figure
    requires { (cost < size_limit) × (small_number value ≡ true) }
    ensures { result ≡ figure_of (pos cost -ℤ value) }
{
    Figure::from(cost as i64 - value)
}

// Cost minus bound, where both are numbers.
fn gap_figure(cost: Option<CostBy>, bound: HeldBound) -> Figure
    requires { (small_cost cost ≡ true) × (small_bound bound ≡ true) }
    ensures { result ≡ gap_shown cost bound }
{
    match (cost, bound) {
        (Some(c), HeldBound::Number(b)) => difference_figure(c.cost, b.value),
        _ => Figure::Missing,
    }
}

// The figures of what is held.
fn figures_of(held: Held) -> Figures
    requires { (small_cost held.cost ≡ true) × (small_bound held.bound ≡ true) }
    ensures { result ≡ figures_of held }
{
    Figures {
        cost: cost_figure(held.cost),
        costwriter: cost_writer_figure(held.cost),
        bound: bound_figure(held.bound),
        boundwriter: bound_writer_figure(held.bound),
        gap: gap_figure(held.cost, held.bound),
    }
}

// The figures of a docket: of what it holds, or of nothing where it is not sound.
pub fn figures_shown(docket: Docket) -> Figures
    ensures { result ≡ figures_of (trusted docket).held }
{
    if sound::is_sound(docket) {
        return figures_of(docket.held);
    }
    figures_of(NOTHING_HELD)
}
