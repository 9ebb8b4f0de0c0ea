// A test of a docket, which carries no promise of its own: every docket that lodging makes passes.
ghost use Rattle.std.specs.Prelude.{◌≡◌, true};
ghost use Rattle.docket.specs.Docket.{small_number, small_cost, small_bound, no_bound, sound_by, sound};
ghost use Rattle.docket.specs.Lodging.{trusted};

use crate::Docket;
use crate::held::{CostBy, Held, HeldBound};
use model::arrays::Problem;

// The figures of a docket are below this, 2^61.
const SIZE_LIMIT: u64 = 2_305_843_009_213_693_952;

// A held bound is below this, 2^61, and above the next, -2^61 - 1.
const BOUND_LIMIT: i64 = 2_305_843_009_213_693_952;

const BOUND_FLOOR: i64 = -2_305_843_009_213_693_953;

// Whether no cost, or one below the limit, is held.
fn is_small_cost(held: Option<CostBy>) -> bool
    ensures { result ≡ small_cost held }
{
    held.is_none_or(|n| n.cost < SIZE_LIMIT)
}

// Whether z lies between the limits of a held bound.
fn is_small_number(z: i64) -> bool
    ensures { result ≡ small_number z }
{
    BOUND_FLOOR < z && z < BOUND_LIMIT
}

// Whether no bound, never, or a number between the limits is held.
fn is_small_bound(held: HeldBound) -> bool
    ensures { result ≡ small_bound held }
{
    match held {
        HeldBound::Nothing | HeldBound::Never(_) => true,
        HeldBound::Number(n) => is_small_number(n.value),
    }
}

// Whether no bound is held.
fn is_no_bound(held: HeldBound) -> bool
    ensures { result ≡ no_bound held }
{
    matches!(held, HeldBound::Nothing)
}

// Whether the problem is valid and the figures held under it are small.
fn is_sound_under(problem: Problem, held: Held) -> bool
    ensures { result ≡ sound_by true problem held }
{
    problem.is_valid() && is_small_cost(held.cost) && is_small_bound(held.bound)
}

// Whether the docket is sound: under a known problem, which is valid, small figures, and under none nothing.
pub fn is_sound(docket: Docket) -> bool
    ensures { result ≡ sound docket }
{
    let held = docket.held;
    if docket.known {
        return is_sound_under(docket.problem, held);
    }
    held.cost.is_none() && is_no_bound(held.bound)
}

// Whether the docket is sound and knows a problem; under none there is nothing to test.
pub fn knows(docket: Docket) -> bool
    ensures { result ≡ (trusted docket).known }
{
    docket.known && is_sound_under(docket.problem, docket.held)
}
