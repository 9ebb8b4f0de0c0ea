// A tree: a leaf, or a fork with two trees.
ghost use Rattle.std.specs.Prelude.{◌≡◌, ◌+◌, ◌≤◌, ◌<◌, length, set};
ghost use Rattle.layout.specs.Plans.{instance_of};
ghost use Rattle.walk.specs.Marks.{above_of, above_length};
ghost use Rattle.text.specs.Lines.{line_at};
ghost use Rattle.tree.specs.NodeLines.{line_kind_of};
ghost use Rattle.tree.specs.Kinds.{line_kind};
ghost use Rattle.tree.specs.ReadAnswers.{node_read, trees_read, Placed};

use crate::above::ForkLine;
use crate::forking::{ForkKind, read_fork_line};
use crate::leaf::{LeafKind, read_leaf};
use crate::read::{BrokenLine, NodeRead};
use layout::plan::Plan;
use model::figures::TreeFigures;

// The node lines: of a fork, with two trees below it, or of a leaf.
#[derive(Clone, Copy)]
pub enum NodeKind {
    Fork(ForkKind),
    Leaf(LeafKind),
}

// Which node line starts at `at`, by its key; where it has none of the keys, a price line is missed.
// The keys are of two lengths, so a `match` on the bytes would be no shorter than these tests in turn.
fn find_kind(text: &[u8], at: usize) -> NodeKind
    ensures { line_kind result ≡ line_kind_of (line_at text.now at) }
{
    if text::starts(text, at, b"split=") {
        return NodeKind::Fork(ForkKind::Split);
    }
    if text::starts(text, at, b"count=") {
        return NodeKind::Fork(ForkKind::Count);
    }
    if text::starts(text, at, b"short=") {
        return NodeKind::Leaf(LeafKind::Short);
    }
    if text::starts(text, at, b"crowd=") {
        return NodeKind::Leaf(LeafKind::Crowd);
    }
    if text::starts(text, at, b"stuck=") {
        return NodeKind::Leaf(LeafKind::Stuck);
    }
    if text::starts(text, at, b"rampprice=") {
        return NodeKind::Leaf(LeafKind::Ramp);
    }
    NodeKind::Leaf(LeafKind::Price)
}

// The tree whose first line starts at `at` and has this number, with what stands above it, which is left as it was.
#[cycle(read_node_read_split)]
pub fn read_node(
    plan: Plan,
    text: &[u8],
    at: usize,
    line: usize,
    depth: usize,
    above: &mut [u8],
    figures: TreeFigures,
) -> Result<NodeRead, BrokenLine>
    requires placed { Placed text.now at line figures }
    requires depth_bound { (depth ≤ 64) × (length above.old ≡ above_length) }
    ensures read { result ≡ node_read (instance_of plan.entry) text.now at line figures (above_of (instance_of plan.entry) above.old) depth }
    ensures same { above.new ≡ above.old }
{
    match find_kind(text, at) {
        NodeKind::Leaf(leaf) => read_leaf(plan, text, at, line, leaf, above, figures),
        NodeKind::Fork(kind) => {
            let fork = match read_fork_line(plan, text, at, depth, kind, above) {
                Ok(fork) => fork,
                Err(number) => return Err(BrokenLine { number, line }),
            };
            let more = figures.with_split();
            read_split(plan, text, line + 1, depth + 1, fork, above, more)
        }
    }
}

// The two trees of a fork, the first of which starts where its line ends and has this line, each with its side's byte above it. The bytes are
// left as they were.
#[cycle(read_node_read_split)]
fn read_split(
    plan: Plan,
    text: &[u8],
    line: usize,
    depth: usize,
    fork: ForkLine,
    above: &mut [u8],
    figures: TreeFigures,
) -> Result<NodeRead, BrokenLine>
    requires placed { Placed text.now fork.next line figures }
    requires depth_bound { (depth ≤ 64) × (length above.old ≡ above_length) }
    requires place_lt_above_length { (fork.first.place < above_length) × (fork.second.place < above_length) }
    ensures read { result ≡ trees_read (instance_of plan.entry) text.now fork.next line figures (above_of (instance_of plan.entry) (set above.old fork.first.place fork.first.byte)) (above_of (instance_of plan.entry) (set above.old fork.second.place fork.second.byte)) depth }
    ensures same { above.new ≡ above.old }
{
    let place = fork.first.place;
    let was = above[place];
    above[place] = fork.first.byte;
    let one = read_node(plan, text, fork.next, line, depth, above, figures);
    above[place] = was;
    let one = one?;
    let place = fork.second.place;
    let was = above[place];
    above[place] = fork.second.byte;
    let two = read_node(plan, text, one.next, one.line, depth, above, one.figures);
    above[place] = was;
    two
}
