// A period on: its best output, and what that costs.
ghost use Rattle.std.specs.Prelude.{◌≡◌, ◌≤◌};
ghost use Rattle.model.specs.Prices.{on_value, best_at};
ghost use Rattle.least.specs.Limits.{GoodSlopes};

use model::unit::Unit;

// The smallest output from pL to pU that costs least, where a unit of output costs x and a unit short of pU costs y.
pub fn best_output(unit: Unit, x: u64, y: u64) -> u64
    requires { GoodSlopes x y }
    ensures { result ≡ best_at unit.generator x y }
{
    let g = unit.generator;
    if y <= x + g.c * (2 * g.pL + 1) {
        return g.pL;
    }
    if g.c == 0 || x + 2 * g.c * g.pU < y + g.c {
        return g.pU;
    }
    (y - x - g.c + (2 * g.c - 1)) / (2 * g.c)
}

// What a period on at the output p costs.
pub fn on_value(unit: Unit, x: u64, y: u64, p: u64) -> u64
    requires good_slopes { GoodSlopes x y }
    requires p_le_p_u { p ≤ unit.generator.pU }
    ensures { result ≡ on_value unit.generator x y p }
{
    let g = unit.generator;
    g.a + x * p + g.c * p * p + y * (g.pU - p)
}

// What a period on costs at the best output.
pub fn least_on(unit: Unit, x: u64, y: u64) -> u64
    requires { GoodSlopes x y }
    ensures { result ≡ on_value unit.generator x y (best_at unit.generator x y) }
{
    on_value(unit, x, y, best_output(unit, x, y))
}
