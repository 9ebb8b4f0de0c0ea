// What is held, as six numbers: three for the cost and three for the bound.
ghost use Rattle.std.specs.Prelude.{◌≡◌};
ghost use Rattle.state.specs.Layout.{cost_numbers, figure_numbers, held_bound_numbers, cost_in, value_in, bound_in};

use docket::held::{BoundBy, CostBy, HeldBound, NeverBy};
use writer::Figure;

// Read for what is no figure of a docket: 2^62, which none of a sound docket reaches.
const SIZE_ROOM: u64 = 4_611_686_018_427_387_904;

const TOO_LARGE: i64 = 4_611_686_018_427_387_904;

// The three numbers of a held cost.
pub fn cost_numbers(cost: Option<CostBy>) -> [u64; 3]
    ensures { result ≡ cost_numbers cost }
{
    match cost {
        None => [0, 0, 0],
        Some(n) => [1, n.cost, n.writer],
    }
}

// The three numbers of a held number, by how it is shown.
fn value_numbers(shown: Figure, writer: u64) -> [u64; 3]
    ensures { result ≡ figure_numbers shown writer }
{
    match shown {
        Figure::Missing => [0, 0, 0],
        Figure::Never => [3, 0, writer],
        Figure::Number(n) => [1, n, writer],
        Figure::Minus(n) => [2, n, writer],
    }
}

// The three numbers of a held bound.
pub fn bound_numbers(bound: HeldBound) -> [u64; 3]
    ensures { result ≡ held_bound_numbers bound }
{
    match bound {
        HeldBound::Nothing => [0, 0, 0],
        HeldBound::Number(n) => value_numbers(Figure::from(n.value), n.writer),
        HeldBound::Never(n) => [3, 0, n.writer],
    }
}

// The held cost of three numbers.
pub fn cost_in(tag: u64, cost: u64, writer: u64) -> Option<CostBy>
    ensures { result ≡ cost_in tag cost writer }
{
    match tag {
        0 => None,
        1 => Some(CostBy { cost, writer }),
        _ => Some(CostBy {
            cost: SIZE_ROOM,
            writer,
        }),
    }
}

// The held number of two numbers.
fn value_in(tag: u64, size: u64) -> i64
    ensures { result ≡ value_in tag size }
{
    match tag {
        1 if size < SIZE_ROOM => size as i64,
        2 if size < SIZE_ROOM => -(size as i64),
        _ => TOO_LARGE,
    }
}

// The held bound of three numbers.
pub fn bound_in(tag: u64, size: u64, writer: u64) -> HeldBound
    ensures { result ≡ bound_in tag size writer }
{
    match tag {
        0 => HeldBound::Nothing,
        3 => HeldBound::Never(NeverBy { writer }),
        _ => HeldBound::Number(BoundBy {
            value: value_in(tag, size),
            writer,
        }),
    }
}
