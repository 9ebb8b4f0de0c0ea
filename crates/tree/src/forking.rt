// The line of a node with two trees below it.
ghost use Rattle.std.specs.Prelude.{◌≡◌, ◌≤◌, length};
ghost use Rattle.layout.specs.Plans.{instance_of};
ghost use Rattle.walk.specs.Marks.{above_of, above_length};
ghost use Rattle.text.specs.Lines.{line_at};
ghost use Rattle.tree.specs.NodeLines.{line_kind_of};
ghost use Rattle.tree.specs.Kinds.{fork_kind};
ghost use Rattle.tree.specs.ReadAnswers.{fork_line_read};

use crate::above::ForkLine;
use crate::counting::read_count_line;
use crate::splitting::read_split_line;
use layout::plan::Plan;

// The two kinds of such lines.
#[derive(Clone, Copy)]
pub enum ForkKind {
    Split,
    Count,
}

// The line of this kind that starts at `at`, or the number that refuses it.
// By a match: contracts name the kind, and a reader is not handed out as a value.
pub fn read_fork_line(
    plan: Plan,
    text: &[u8],
    at: usize,
    depth: usize,
    kind: ForkKind,
    above: &[u8],
) -> Result<ForkLine, u64>
    requires above_len { length above.now ≡ above_length }
    requires text_len_bound { length text.now ≤ 1048576 }
    requires at_value { line_kind_of (line_at text.now at) ≡ fork_kind kind }
    ensures { result ≡ fork_line_read (instance_of plan.entry) text.now at (above_of (instance_of plan.entry) above.now) depth kind }
{
    match kind {
        ForkKind::Split => read_split_line(plan, text, at, depth, above),
        ForkKind::Count => read_count_line(plan, text, at, depth, above),
    }
}
