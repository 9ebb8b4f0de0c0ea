// A split line.
ghost use Rattle.std.specs.Prelude.{◌≡◌, ◌+◌, ◌*◌, ◌≤◌, ◌<◌, length};
ghost use Rattle.layout.specs.Plans.{instance_of};
ghost use Rattle.walk.specs.Marks.{above_of, above_length};
ghost use Rattle.text.specs.Lines.{line_at};
ghost use Rattle.tree.specs.NodeLines.{line_kind_of};
ghost use Rattle.tree.specs.Refusals.{split_line};
ghost use Rattle.tree.specs.Coded.{split_refusal};
ghost use Rattle.tree.specs.declared.forking.ForkKind.TheVariants.{Split};
ghost use Rattle.tree.specs.ReadAnswers.{fork_line_read};

use crate::above::{ForkLine, MOST_DEPTH, OFF, ON, Side, is_fixed};
use layout::plan::Plan;

// Whether the status at a place may be split on, or the number that refuses it (31, 32).
fn refuse_split(above: &[u8], place: usize, depth: usize) -> Result<(), u64>
    requires { place < length above.now }
    ensures { result ≡ split_refusal above.now place depth }
{
    if is_fixed(above[place]) {
        return Err(31);
    }
    if MOST_DEPTH < depth {
        return Err(32);
    }
    Ok(())
}

// The split line that starts at `at`, or the number that refuses it.
pub fn read_split_line(
    plan: Plan,
    text: &[u8],
    at: usize,
    depth: usize,
    above: &[u8],
) -> Result<ForkLine, u64>
    requires above_len { length above.now ≡ above_length }
    requires text_len_bound { length text.now ≤ 1048576 }
    requires at_value { line_kind_of (line_at text.now at) ≡ split_line }
    ensures { result ≡ fork_line_read (instance_of plan.entry) text.now at (above_of (instance_of plan.entry) above.now) depth Split }
{
    let units = plan.units();
    let periods = plan.periods();
    let highs = [units as u64, periods as u64];
    let mut values = [0u64; 2];
    let next = text::fill_line(text, at, b"split=", &[1, 1], &highs, &mut values)?;
    let unit = (values[0] - 1) as usize;
    let period = (values[1] - 1) as usize;
    let place = unit * periods + period;
    refuse_split(above, place, depth)?;
    Ok(ForkLine {
        first: Side { place, byte: OFF },
        second: Side { place, byte: ON },
        next,
    })
}
