// A tree's text, judged line by line: its bound and its counts.
#![tactic(auto)]

ghost use Rattle.std.specs.Prelude.{◌≡◌, ◌≤◌, length, Ok};
ghost use Rattle.model.specs.Held.{view, Valid};
ghost use Rattle.tree.specs.Course.{IsTree};
ghost use Rattle.tree.specs.ReadAnswers.{Placed, ended_as, tree_read};

use crate::node::read_node;
use crate::read::{BrokenLine, NodeRead};
use layout::plan::Plan;
use layout::ranking::lay_out_ranked;
use model::arrays::Problem;
use model::figures::TreeFigures;
use refusal::Refusal;
use text::{End, Fault};

mod above;
mod counting;
mod forking;
mod leaf;
mod naming;
mod node;
mod ramp;
mod read;
mod splitting;

// Where the second line starts: after kind=tree and its byte 10.
const SECOND_LINE: usize = 10;

// What an accepted tree's text gives: its writer, and the tree's figures.
#[derive(Clone, Copy)]
pub struct TreeRead {
    pub writer: u64,
    pub figures: TreeFigures,
}

// The answer where the tree was read as this, and the end line is due.
fn read_end(text: &[u8], writer: u64, read: NodeRead) -> Result<TreeRead, Refusal>
    requires { Placed text.now read.next read.line read.figures }
    ensures { result ≡ ended_as text.now writer (Ok read) }
{
    match reader::read_end(text, read.next, b"end=tree") {
        End::Missing => Err(Refusal::from(BrokenLine::by(Fault::Malformed, read.line))),
        End::Followed => Err(Refusal::from(BrokenLine::by(Fault::Malformed, read.line + 1))),
        End::Last => Ok(TreeRead {
            writer,
            figures: read.figures,
        }),
    }
}

// What the text, whose first line is kind=tree, gives under the problem, or its refusal.
pub fn read_tree(problem: Problem, text: &[u8]) -> Result<TreeRead, Refusal>
    requires valid { Valid problem }
    requires text_len_bound { length text.now ≤ 1048576 }
    requires tree { IsTree text.now }
    ensures { result ≡ tree_read (view problem) text.now }
{
    let line = reader::read_writer(text, SECOND_LINE).map_err(|fault| BrokenLine::by(fault, 2))?;
    let numbers = lay_out_ranked(problem);
    let mut above = [0u8; 1632];
    let read = read_node(
        Plan::of(&numbers),
        text,
        line.next,
        3,
        0,
        &mut above,
        TreeFigures::none(),
    )?;
    read_end(text, line.writer, read)
}
