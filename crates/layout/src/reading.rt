// A problem read back from its numbers, well-formed or not.
ghost use Rattle.std.specs.Prelude.{◌≡◌, ◌≤◌, length, take};
ghost use Rattle.layout.specs.Numbers.{generators_in, problem_in};

use crate::generator_of;
use model::arrays::Problem;
use model::generator::Generator;

// The first 48 numbers.
fn loads_in(numbers: &[u64]) -> [u64; 48]
    requires { 48 ≤ length numbers.now }
    ensures { result ≡ take 48 numbers.now }
{
    *numbers.first_chunk().unwrap()
}

// The generators of a problem's numbers.
fn generators_in(numbers: &[u64]) -> [Generator; 32]
    requires { 610 ≤ length numbers.now }
    ensures { result ≡ generators_in numbers.now 0 32 }
{
    let mut generators = [Generator::blank(); 32];
    for u in 0..32 {
        generators[u] = generator_of(&numbers[98 + u * 16..]);
    }
    generators
}

// The problem of its numbers, well-formed or not.
pub fn problem_in(numbers: &[u64]) -> Problem
    requires { 610 ≤ length numbers.now }
    ensures { result ≡ problem_in numbers.now }
{
    Problem {
        periods: numbers[0] as usize,
        units: numbers[1] as usize,
        demand: loads_in(&numbers[2..]),
        spare: loads_in(&numbers[50..]),
        generators: generators_in(numbers),
    }
}
