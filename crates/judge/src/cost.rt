// The cost of a row, by (1) and (13) to (19).
ghost use Rattle.std.specs.Prelude.{◌≡◌, not, ◌≤◌, length};
ghost use Rattle.model.specs.Instance.{◌at◌, sum};
ghost use Rattle.model.specs.Ranges.{InRange, All, GoodOutput};
ghost use Rattle.model.specs.Rules.{on};
ghost use Rattle.model.specs.Cost.{fuel_cost, switch_cost};
ghost use Rattle.judge.specs.Counts.{bit};

use model::generator::Generator;

// 1 if the output is above 0, else 0.
fn count_on(output: u16) -> u32
    ensures { result ≡ bit (on output) }
{
    u32::from(output != 0)
}

// What the row's outputs cost: a for each period on, b times their sum and c times the sum of their squares.
pub fn sum_fuel(g: Generator, row: &[u16]) -> u64
    requires { InRange g × (length row.now ≤ 48) × All GoodOutput row.now }
    ensures { result ≡ sum (length row.now) (λ t. fuel_cost g (row.now at t)) }
{
    let mut periods: u32 = 0;
    let mut outputs: u32 = 0;
    let mut squares: u64 = 0;
    for output in row {
        let p = u32::from(*output);
        periods += count_on(*output);
        outputs += p;
        squares += u64::from(p * p);
    }
    g.a * u64::from(periods) + g.b * u64::from(outputs) + g.c * squares
}

// The cost of changing the status after k periods in it.
pub fn charge_switch(g: Generator, status: bool, k: usize) -> u64
    requires { InRange g }
    ensures { result ≡ switch_cost g status k (not status) }
{
    if status {
        g.Dc
    } else if k <= g.TD + g.Tcold {
        g.Hsc
    } else {
        g.Csc
    }
}
