// 25: ramps, by (11) and (12). A good unit was on before period 1 exactly when its output at midnight is above 0.
ghost use Rattle.std.specs.Prelude.{◌≡◌, not, ◌&&◌, ◌+◌, ◌<◌, ◌≤◌, leb, length};
ghost use Rattle.model.specs.Ranges.{All, GoodOutput};
ghost use Rattle.model.specs.Rules.{on};
ghost use Rattle.model.specs.Breach.{off_ramp};
ghost use Rattle.judge.specs.Counts.{bit, breaches};
ghost use Rattle.judge.specs.Before.{output_before};

use model::generator::Generator;
use model::unit::Unit;

// The output in the period before t; before period 1 it is that at midnight.
fn look_back(g: Generator, row: &[u16], t: usize) -> u64
    requires { t < length row.now }
    ensures { result ≡ output_before g.p0 row.now t }
{
    if t == 0 { g.p0 } else { u64::from(row[t - 1]) }
}

// Whether the output, on in the period before t and in t, rises by more than UR or falls by more than DR.
pub fn is_off_ramp(unit: Unit, row: &[u16], t: usize) -> bool
    requires { t < length row.now }
    ensures { result ≡ off_ramp t unit.generator row.now }
{
    let g = unit.generator;
    let before = look_back(g, row, t);
    let after = u64::from(row[t]);
    before != 0 && after != 0 && (before + g.UR < after || after + g.DR < before)
}

// 1 if the output and the one before it are above 0 and it rises by more than up or falls by more than down, else 0.
fn count_steep(up: u16, down: u16, previous: u16, output: u16) -> u16
    requires { (up ≤ 10000) × ((down ≤ 10000) × ((previous ≤ 10000) × (output ≤ 10000))) }
    ensures { result ≡ bit ((on previous && on output) && not (leb output (previous + up) && leb previous (output + down))) }
{
    u16::from(previous != 0 && output != 0 && (previous + up < output || output + down < previous))
}

// In how many periods the row's output leaves its ramp.
pub fn count_off_ramp(unit: Unit, row: &[u16]) -> u16
    requires { (length row.now ≤ 48) × (1 ≤ length row.now) × All GoodOutput row.now }
    ensures { result ≡ breaches off_ramp unit.generator row.now (length row.now) }
{
    let g = unit.generator;
    let up = g.UR as u16;
    let down = g.DR as u16;
    let midnight = g.p0 as u16;
    let mut n = count_steep(up, down, midnight, row[0]);
    for t in 1..row.len() {
        n += count_steep(up, down, row[t - 1], row[t]);
    }
    n
}
