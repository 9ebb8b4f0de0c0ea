// The line of a unit.
ghost use Rattle.std.specs.Prelude.{◌≡◌};
ghost use Rattle.text.specs.Lines.{line_at};
ghost use Rattle.problem.specs.Units.{generator};
ghost use Rattle.problem.specs.Storing.{unit_row};

use model::generator::Generator;
use text::Fault;

// The lowest and the highest that each value may be, Tini's without its sign.
const LOWS: [u64; 15] = [
    0,
    0,
    0,
    Generator::LEAST_OUTPUT,
    Generator::LEAST_OUTPUT,
    Generator::LEAST_TIME,
    Generator::LEAST_TIME,
    Generator::LEAST_SINCE,
    Generator::LEAST_OUTPUT,
    Generator::LEAST_OUTPUT,
    0,
    0,
    0,
    0,
    0,
];

const HIGHS: [u64; 15] = [
    Generator::MOST_COST,
    Generator::MOST_B,
    Generator::MOST_C,
    Generator::MOST_OUTPUT,
    Generator::MOST_OUTPUT,
    Generator::MOST_TIME,
    Generator::MOST_TIME,
    Generator::MOST_SINCE,
    Generator::MOST_OUTPUT,
    Generator::MOST_OUTPUT,
    Generator::MOST_COST,
    Generator::MOST_COST,
    Generator::MOST_TIME,
    Generator::MOST_COST,
    Generator::MOST_OUTPUT,
];

// A good unit line: the next line's start, and its generator.
#[derive(Clone, Copy)]
pub struct UnitRow {
    pub next: usize,
    pub generator: Generator,
}

// The generator of a unit line's values, of which Tini carries a minus or not.
fn make_generator(minus: bool, v: [u64; 48]) -> Generator
    ensures { result ≡ generator minus v }
{
    Generator {
        a: v[0],
        b: v[1],
        c: v[2],
        pL: v[3],
        pU: v[4],
        TU: v[5] as usize,
        TD: v[6] as usize,
        on: !minus,
        since: v[7] as usize,
        DR: v[8],
        UR: v[9],
        Hsc: v[10],
        Csc: v[11],
        Tcold: v[12] as usize,
        Dc: v[13],
        p0: v[14],
    }
}

// The unit line that starts at `at`, or what is wrong with it.
pub fn read_unit(s: &[u8], at: usize) -> Result<UnitRow, Fault>
    ensures { result ≡ unit_row (line_at s.now at) at }
{
    let row = text::read_line(s, at, b"unit=", 8, &LOWS, &HIGHS)?;
    let generator = make_generator(row.minus, row.values);
    if !generator.is_ordered() {
        return Err(Fault::Disordered);
    }
    Ok(UnitRow {
        next: row.next,
        generator,
    })
}
