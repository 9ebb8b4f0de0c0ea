// 21: an output from pL to pU, by (4).
ghost use Rattle.std.specs.Prelude.{◌≡◌, not, ◌&&◌, ◌<◌, ◌≤◌, leb, length};
ghost use Rattle.model.specs.Ranges.{InRange};
ghost use Rattle.model.specs.Rules.{on};
ghost use Rattle.model.specs.Breach.{off_limits};
ghost use Rattle.judge.specs.Counts.{bit, breaches};

use model::generator::Generator;

// Whether the row's output in period t is above 0 and not from pL to pU.
pub fn is_off_limits(g: Generator, row: &[u16], t: usize) -> bool
    requires { t < length row.now }
    ensures { result ≡ off_limits t g row.now }
{
    let p = u64::from(row[t]);
    p != 0 && !(g.pL..=g.pU).contains(&p)
}

// 1 if the output is above 0 and not from low to high, else 0.
fn count_off(low: u16, high: u16, output: u16) -> u16
    ensures { result ≡ bit (on output && not (leb low output && leb output high)) }
{
    u16::from(output != 0 && !(low..=high).contains(&output))
}

// In how many periods the row's output is off its limits.
pub fn count_off_limits(g: Generator, row: &[u16]) -> u16
    requires { InRange g × (length row.now ≤ 48) }
    ensures { result ≡ breaches off_limits g row.now (length row.now) }
{
    let low = g.pL as u16;
    let high = g.pU as u16;
    let mut n: u16 = 0;
    for output in row {
        n += count_off(low, high, *output);
    }
    n
}
