// A problem in arrays.
ghost use Rattle.std.specs.Prelude.{◌≡◌, ◌≤◌, take};
ghost use Rattle.model.specs.Ranges.{every, load_in_range, good_generator};
ghost use Rattle.model.specs.Held.{blank_problem, valid_problem};

use crate::generator::Generator;
use crate::ranges::Span;

// A problem of at most 48 periods and 32 generators; the arrays begin with the problem's own.
#[derive(Clone, Copy)]
pub struct Problem {
    pub periods: usize,
    pub units: usize,
    pub demand: [u64; 48],
    pub spare: [u64; 48],
    pub generators: [Generator; 32],
}

// Whether every load is in range.
fn has_loads_in_range(loads: &[u64]) -> bool
    ensures { result ≡ every load_in_range loads.now }
{
    loads.iter().all(|load| Span::LOAD.contains(*load))
}

// Whether every generator is good.
fn has_good_generators(generators: &[Generator]) -> bool
    ensures { result ≡ every good_generator generators.now }
{
    generators.iter().all(|g| g.is_good())
}

impl Problem {
    // The problem of no periods and no units.
    pub fn blank() -> Problem
        ensures { result ≡ blank_problem }
    {
        Problem {
            periods: 0,
            units: 0,
            demand: [0; 48],
            spare: [0; 48],
            generators: [Generator::blank(); 32],
        }
    }

    // Whether the arrays hold a well-formed problem.
    #[tactic(auto, unfolding(crate::specs::Held::valid_problem))]
    pub fn is_valid(self) -> bool
        ensures { result ≡ valid_problem self }
    {
        Span::HORIZON.contains(self.periods as u64)
            && Span::FLEET.contains(self.units as u64)
            && has_loads_in_range(&self.demand[..self.periods])
            && has_loads_in_range(&self.spare[..self.periods])
            && has_good_generators(&self.generators[..self.units])
    }
}
