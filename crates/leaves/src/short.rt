// Whether the units that may be on are short of a period's demand and spare: they are taken one after the other until they reach it.
ghost use Rattle.std.specs.Prelude.{◌≡◌, ◌*◌, ◌≤◌, ◌<◌, length, take};
ghost use Rattle.model.specs.Largest.{falling};
ghost use Rattle.model.specs.Leaf.{usable};
ghost use Rattle.layout.specs.Plans.{instance_of};
ghost use Rattle.walk.specs.Marks.{above_of, above_length};
ghost use Rattle.leaves.specs.LeafLeasts.{taken_in, taken_from};

use crate::counts::UPPER;
use crate::marks::{not_off_of, usable_of};
use layout::plan::Plan;

// Whether the units taken are short, and how many they are.
#[derive(Clone, Copy)]
pub struct Taken {
    pub short: bool,
    pub units: usize,
}

// The units that are free or fixed on in period t, taken by number until they reach the need.
fn take_by_number(plan: Plan, t: usize, above: &[u8], need: u64) -> Taken
    requires t_bound { t < (instance_of plan).periods }
    requires numbers_in_bounds { length (instance_of plan).units * (instance_of plan).periods ≤ length above.now }
    requires need_bound { need ≤ 640_000 }
    ensures { result ≡ taken_from (usable (instance_of plan.entry).units (above_of (instance_of plan.entry) above.now).marks t) need }
{
    let n = plan.periods();
    let mut sum = 0;
    let mut taken = 0;
    for u in 0..plan.units() {
        if need <= sum {
            return Taken {
                short: false,
                units: taken,
            };
        }
        let mark = above[u * n + t];
        sum += usable_of(mark, plan.pU(u));
        taken += not_off_of(mark);
    }
    Taken {
        short: sum < need,
        units: taken,
    }
}

// Those units, taken the largest first, and `most` of them at most, until they reach the need. As a `for` with a `break` the loop takes a
// twentieth more steps; by a closure for the place and the size it would be one with `take_by_number`, and ask of it what both ask: no plainer.
fn take_largest(plan: Plan, t: usize, above: &[u8], need: u64, most: usize) -> Taken
    requires t_bound { t < (instance_of plan).periods }
    requires numbers_in_bounds { length (instance_of plan).units * (instance_of plan).periods ≤ length above.now }
    requires need_bound { need ≤ 640_000 }
    ensures { result ≡ taken_from (take most (falling (usable (instance_of plan.entry).units (above_of (instance_of plan.entry) above.now).marks t))) need }
{
    let units = plan.units();
    let mut sum = 0;
    let mut taken = 0;
    let mut i = 0;
    while taken < most && i < units {
        if need <= sum {
            return Taken {
                short: false,
                units: taken,
            };
        }
        let mark = above[plan.place(i) + t];
        sum += usable_of(mark, plan.size(i));
        taken += not_off_of(mark);
        i += 1;
    }
    Taken {
        short: sum < need,
        units: taken,
    }
}

// Whether what can be on in period t is short of demand and spare, and how many units were taken until that was plain: by number, or the largest first
// where an upper count stands, and no more than it.
pub fn sum_until(plan: Plan, t: usize, above: &[u8]) -> Taken
    requires t_bound { t < (instance_of plan).periods }
    requires above_len { length above.now ≡ above_length }
    ensures { result ≡ taken_in (instance_of plan.entry) (above_of (instance_of plan.entry) above.now) t }
{
    let need = plan.demand(t) + plan.spare(t);
    let upper = above[UPPER + t];
    if upper == 0 {
        return take_by_number(plan, t, above, need);
    }
    take_largest(plan, t, above, need, usize::from(upper - 1))
}
