// A problem's numbers in one array, so that they can be lent.
#![tactic(auto)]

ghost use Rattle.std.specs.Prelude.{◌≡◌, ◌≤◌, length};
ghost use Rattle.layout.specs.Numbers.{generator_numbers, laid_out, generator_of};

use crate::copies::store;
use model::arrays::Problem;
use model::generator::Generator;

pub mod copies;
pub mod plan;
pub mod ranking;
pub mod reading;

// The generator's 16 numbers.
// No From: neither a generator nor an array is of this crate.
fn generator_numbers(g: Generator) -> [u64; 16]
    ensures { result ≡ generator_numbers g }
{
    [
        g.a,
        g.b,
        g.c,
        g.pL,
        g.pU,
        g.TU as u64,
        g.TD as u64,
        u64::from(g.on),
        g.since as u64,
        g.DR,
        g.UR,
        g.Hsc,
        g.Csc,
        g.Tcold as u64,
        g.Dc,
        g.p0,
    ]
}

// The problem's numbers.
pub fn lay_out(problem: Problem) -> [u64; 610]
    ensures { result ≡ laid_out problem }
{
    let mut numbers = [0u64; 610];
    numbers[0] = problem.periods as u64;
    numbers[1] = problem.units as u64;
    store(&mut numbers, 2, &problem.demand);
    store(&mut numbers, 50, &problem.spare);
    for (u, g) in problem.generators.iter().enumerate() {
        let values = generator_numbers(*g);
        store(&mut numbers, 98 + u * 16, &values);
    }
    numbers
}

// The generator that these numbers are.
fn generator_of(values: &[u64]) -> Generator
    requires { 16 ≤ length values.now }
    ensures { result ≡ generator_of values.now }
{
    Generator {
        a: values[0],
        b: values[1],
        c: values[2],
        pL: values[3],
        pU: values[4],
        TU: values[5] as usize,
        TD: values[6] as usize,
        on: values[7] != 0,
        since: values[8] as usize,
        DR: values[9],
        UR: values[10],
        Hsc: values[11],
        Csc: values[12],
        Tcold: values[13] as usize,
        Dc: values[14],
        p0: values[15],
    }
}
