// What a tree gives: its bound and its counts.
ghost use Rattle.std.specs.Prelude.{◌≡◌, ◌<◌};
ghost use Rattle.model.specs.Figures.{lower, no_figures, add_split, add_leaf};

// The bound, the split lines and the leaves, of a tree or of what was read of one so far. The bound is the smallest value of
// the price leaves and ramp leaves; there is none, which is written never, where there is no such leaf.
#[derive(Clone, Copy)]
pub struct TreeFigures {
    pub bound: Option<i64>,
    pub splits: usize,
    pub leaves: usize,
}

// The smaller of two bounds, never being above every number.
fn lower_bound(a: Option<i64>, b: Option<i64>) -> Option<i64>
    ensures { result ≡ lower a b }
{
    match (a, b) {
        (Some(x), Some(y)) => Some(x.min(y)),
        (None, other) | (other, None) => other,
    }
}

impl TreeFigures {
    // Before the first node line.
    pub fn none() -> TreeFigures
        ensures { result ≡ no_figures }
    {
        TreeFigures {
            bound: None,
            splits: 0,
            leaves: 0,
        }
    }

    // With one split line more.
    pub fn with_split(self) -> TreeFigures
        requires { self.splits < 2000000 }
        ensures { result ≡ add_split self }
    {
        TreeFigures {
            splits: self.splits + 1,
            ..self
        }
    }

    // With one leaf more, which has this bound.
    pub fn with_leaf(self, leaf: Option<i64>) -> TreeFigures
        requires { self.leaves < 2000000 }
        ensures { result ≡ add_leaf self leaf }
    {
        TreeFigures {
            bound: lower_bound(self.bound, leaf),
            leaves: self.leaves + 1,
            ..self
        }
    }
}
