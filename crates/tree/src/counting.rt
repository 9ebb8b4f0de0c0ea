// A count line.
ghost use Rattle.std.specs.Prelude.{◌≡◌, ◌≤◌, ◌<◌, length};
ghost use Rattle.layout.specs.Plans.{instance_of};
ghost use Rattle.walk.specs.Marks.{most_of, above_of, above_length};
ghost use Rattle.tree.specs.declared.forking.ForkKind.TheVariants.{Count};
ghost use Rattle.text.specs.Lines.{line_at};
ghost use Rattle.tree.specs.Refusals.{count_line};
ghost use Rattle.tree.specs.NodeLines.{narrows, line_kind_of};
ghost use Rattle.tree.specs.Coded.{count_refusal};
ghost use Rattle.tree.specs.ReadAnswers.{fork_line_read};

use crate::above::{ForkLine, MOST_DEPTH, Side};
use layout::plan::Plan;
use leaves::counts::{LOWER, UPPER};

// Whether the count is not below the lower one and below the upper one, as these bytes hold them.
fn is_narrower(count: usize, lower: u8, upper: u8) -> bool
    ensures { result ≡ narrows lower (most_of upper) count }
{
    lower as usize <= count && (upper == 0 || count < (upper - 1) as usize)
}

// Whether a count of so many units may stand in period t, or the number that refuses it (32, 37).
fn refuse_count(above: &[u8], t: usize, count: usize, depth: usize) -> Result<(), u64>
    requires { (t < 48) × (length above.now ≡ above_length) }
    ensures { result ≡ count_refusal above.now t count depth }
{
    if MOST_DEPTH < depth {
        return Err(32);
    }
    if !is_narrower(count, above[LOWER + t], above[UPPER + t]) {
        return Err(37);
    }
    Ok(())
}

// The count line that starts at `at`, or the number that refuses it.
pub fn read_count_line(
    plan: Plan,
    text: &[u8],
    at: usize,
    depth: usize,
    above: &[u8],
) -> Result<ForkLine, u64>
    requires above_len { length above.now ≡ above_length }
    requires text_len_bound { length text.now ≤ 1048576 }
    requires at_value { line_kind_of (line_at text.now at) ≡ count_line }
    ensures { result ≡ fork_line_read (instance_of plan.entry) text.now at (above_of (instance_of plan.entry) above.now) depth Count }
{
    let units = plan.units();
    let periods = plan.periods();
    let highs = [periods as u64, (units - 1) as u64];
    let mut values = [0u64; 2];
    let next = text::fill_line(text, at, b"count=", &[1, 0], &highs, &mut values)?;
    let period = (values[0] - 1) as usize;
    let count = values[1] as u8;
    refuse_count(above, period, count as usize, depth)?;
    let byte = count + 1;
    let first = Side {
        place: UPPER + period,
        byte,
    };
    let second = Side {
        place: LOWER + period,
        byte,
    };
    Ok(ForkLine {
        first,
        second,
        next,
    })
}
