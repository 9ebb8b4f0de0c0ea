// The ranges of document 01 for the numbers of a text that are no generator's.
ghost use Rattle.std.specs.Prelude.{◌≡◌};
ghost use Rattle.model.specs.Ranges.{between};

// The numbers from least to most, both allowed.
#[derive(Clone, Copy)]
pub struct Span {
    pub least: u64,
    pub most: u64,
}

impl Span {
    // A number of periods.
    pub const HORIZON: Span = Span { least: 1, most: 48 };

    // A number of units.
    pub const FLEET: Span = Span { least: 1, most: 32 };

    // A period's demand, or its spare.
    pub const LOAD: Span = Span {
        least: 0,
        most: 320_000,
    };

    // A unit's output in a period.
    pub const OUTPUT: Span = Span {
        least: 0,
        most: 10_000,
    };

    // A price or reserve multiplier.
    pub const PRICE: Span = Span {
        least: 0,
        most: 1_000_000_000,
    };

    // The writer of a schedule or a tree.
    pub const WRITER: Span = Span {
        least: 1,
        most: 65_535,
    };

    // Whether v is one of them.
    pub fn contains(self, v: u64) -> bool
        ensures { result ≡ between self.least v self.most }
    {
        self.least <= v && v <= self.most
    }
}
