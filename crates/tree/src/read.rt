// What reading a tree finds: what was read so far, or the line that is refused.
ghost use Rattle.std.specs.Prelude.{◌≡◌};
ghost use Rattle.refusal.specs.Refusals.{refusal_of};
ghost use Rattle.text.specs.Forms.{fault_number};
ghost use Rattle.tree.specs.ReadAnswers.{broken};

use model::figures::TreeFigures;
use refusal::Refusal;
use text::Fault;

// What was read of a tree: the next line's start and its number, and the figures.
#[derive(Clone, Copy)]
pub struct NodeRead {
    pub next: usize,
    pub line: usize,
    pub figures: TreeFigures,
}

// A line that is refused: by which number, and the line's own. The numbers name the rules of documents 01 and 02, and so are numbers here too.
#[derive(Clone, Copy)]
pub struct BrokenLine {
    pub number: u64,
    pub line: usize,
}

impl BrokenLine {
    // The line with this number, of whose form this is wrong.
    pub fn by(fault: Fault, line: usize) -> BrokenLine
        ensures { result ≡ broken (fault_number fault) line }
    {
        BrokenLine {
            number: u64::from(fault),
            line,
        }
    }
}

impl From<BrokenLine> for Refusal {
    ghost from_gives = { λ broken refusal. refusal ≡ refusal_of broken.number broken.line 0 0 };

    fn from(broken: BrokenLine) -> Refusal {
        refusal::refuse(broken.number, broken.line, 0, 0)
    }
}
