// What stands above a node, as bytes: the statuses that the splits above it fix, a byte each, OFF, ON, or neither, those of a unit from its
// number, from 0, times the periods on; then the counts (leaves::counts).
ghost use Rattle.std.specs.Prelude.{◌≡◌};
ghost use Rattle.walk.specs.Marks.{mark_of};
ghost use Rattle.tree.specs.NodeLines.{is_fixed};

pub const OFF: u8 = 1;

pub const ON: u8 = 2;

// The depth of the deepest split or count.
pub const MOST_DEPTH: usize = 63;

// What one of a fork's two trees has above it, beside what the fork has: a byte at a place.
#[derive(Clone, Copy)]
pub struct Side {
    pub place: usize,
    pub byte: u8,
}

// What a fork's good line says: what stands above its first tree and above its second, and the next line's start.
#[derive(Clone, Copy)]
pub struct ForkLine {
    pub first: Side,
    pub second: Side,
    pub next: usize,
}

// Whether the status is off or on, and not free.
pub fn is_fixed(status: u8) -> bool
    ensures { result ≡ is_fixed (mark_of status) }
{
    status == OFF || status == ON
}
