// The leaves: short, crowd, stuck, and a price leaf's two lines; a ramp leaf's are in ramp.rt.
ghost use Rattle.std.specs.Prelude.{◌≡◌, true, Bool, ℕ, ◌≤◌, ◌<◌, length, take, drop};
ghost use Rattle.model.specs.Tree.{Multipliers};
ghost use Rattle.layout.specs.Plans.{instance_of};
ghost use Rattle.walk.specs.Marks.{above_of, above_length};
ghost use Rattle.text.specs.Lines.{one_line, begins, line_at};
ghost use Rattle.tree.specs.NodeLines.{line_kind_of};
ghost use Rattle.tree.specs.Refusals.{short_line, crowd_line, stuck_line, price_line};
ghost use Rattle.tree.specs.Kinds.{leaf_kind};
ghost use Rattle.tree.specs.Places.{priced};
ghost use Rattle.tree.specs.ReadAnswers.{named_line_read, ruled, leaf_read, part_read, Placed};

use crate::naming::read_named;
use crate::ramp::read_ramp;
use crate::read::{BrokenLine, NodeRead};
use layout::plan::Plan;
use least::stuck::is_unit_stuck;
use leaves::crowd::is_crowd;
use leaves::price::leaf_value;
use leaves::short::sum_until;
use model::figures::TreeFigures;
use model::ranges::Span;

// The kinds of leaves, by their first lines.
#[derive(Clone, Copy)]
pub enum LeafKind {
    Short,
    Crowd,
    Stuck,
    Price,
    Ramp,
}

// The leaf whose line starts at `at` and has this number, begins with key and may name 1 to most: read where its rule holds of the one that it
// names, from 0, and otherwise refused by the rule's number.
fn read_ruled<F: Fn(usize) -> bool>(
    text: &[u8],
    at: usize,
    line: usize,
    figures: TreeFigures,
    key: &[u8],
    most: usize,
    number: u64,
    holds: F,
) -> Result<NodeRead, BrokenLine>
    requires placed { Placed text.now at line figures }
    requires key_value { (one_line key.now ≡ true) × (most ≤ 48) }
    requires text_value { begins key.now (drop at text.now) ≡ true }
    requires callable { (i : ℕ) → i < most → F.pre holds i }
    ensures { (p : ℕ → Bool) → ((i : ℕ) → (b : Bool) → i < most → F.post holds i b → b ≡ p i) → result ≡ ruled number p line figures (named_line_read key.now most text.now at) }
{
    let named = read_named(text, at, key, most).map_err(|fault| BrokenLine::by(fault, line))?;
    if !holds(named.index) {
        return Err(BrokenLine { number, line });
    }
    Ok(NodeRead {
        next: named.next,
        line: line + 1,
        figures: figures.with_leaf(None),
    })
}

// The short leaf whose line starts at `at` and has this number.
fn read_short(
    plan: Plan,
    text: &[u8],
    at: usize,
    line: usize,
    above: &[u8],
    figures: TreeFigures,
) -> Result<NodeRead, BrokenLine>
    requires above_len { length above.now ≡ above_length }
    requires placed { Placed text.now at line figures }
    requires at_value { line_kind_of (line_at text.now at) ≡ short_line }
    ensures { result ≡ leaf_read (instance_of plan.entry) text.now at line figures (above_of (instance_of plan.entry) above.now) }
{
    let most = plan.periods();
    read_ruled(
        text,
        at,
        line,
        figures,
        b"short=",
        most,
        33,
        |t| sum_until(plan, t, above).short,
    )
}

// The crowd leaf whose line starts at `at` and has this number.
fn read_crowd(
    plan: Plan,
    text: &[u8],
    at: usize,
    line: usize,
    above: &[u8],
    figures: TreeFigures,
) -> Result<NodeRead, BrokenLine>
    requires above_len { length above.now ≡ above_length }
    requires placed { Placed text.now at line figures }
    requires at_value { line_kind_of (line_at text.now at) ≡ crowd_line }
    ensures { result ≡ leaf_read (instance_of plan.entry) text.now at line figures (above_of (instance_of plan.entry) above.now) }
{
    let most = plan.periods();
    read_ruled(
        text,
        at,
        line,
        figures,
        b"crowd=",
        most,
        36,
        |t| is_crowd(plan, t, above),
    )
}

// The stuck leaf whose line starts at `at` and has this number.
fn read_stuck(
    plan: Plan,
    text: &[u8],
    at: usize,
    line: usize,
    above: &[u8],
    figures: TreeFigures,
) -> Result<NodeRead, BrokenLine>
    requires above_len { length above.now ≡ above_length }
    requires placed { Placed text.now at line figures }
    requires at_value { line_kind_of (line_at text.now at) ≡ stuck_line }
    ensures { result ≡ leaf_read (instance_of plan.entry) text.now at line figures (above_of (instance_of plan.entry) above.now) }
{
    let most = plan.units();
    read_ruled(
        text,
        at,
        line,
        figures,
        b"stuck=",
        most,
        34,
        |u| is_unit_stuck(plan, u, above),
    )
}

// The price leaf with the multipliers q whose reserve line starts at `at` and has this number.
pub fn read_reserve(
    plan: Plan,
    text: &[u8],
    at: usize,
    line: usize,
    q: [u64; 48],
    above: &[u8],
    figures: TreeFigures,
) -> Result<NodeRead, BrokenLine>
    requires above_len { length above.now ≡ above_length }
    requires placed { Placed text.now at line figures }
    requires multipliers { Multipliers (instance_of plan) (take (instance_of plan).periods q) }
    ensures { result ≡ part_read (instance_of plan.entry) text.now at line figures (above_of (instance_of plan.entry) above.now) (priced (take (instance_of plan.entry).periods q)) }
{
    let periods = plan.periods();
    let row = text::read_row(
        text,
        at,
        b"reserve=",
        periods,
        Span::PRICE.least,
        Span::PRICE.most,
    )
    .map_err(|fault| BrokenLine::by(fault, line))?;
    let Some(value) = leaf_value(plan, &q[..periods], &row.values[..periods], above) else {
        return Err(BrokenLine { number: 35, line });
    };
    Ok(NodeRead {
        next: row.next,
        line: line + 1,
        figures: figures.with_leaf(Some(value)),
    })
}

// The price leaf whose price line starts at `at` and has this number.
fn read_price(
    plan: Plan,
    text: &[u8],
    at: usize,
    line: usize,
    above: &[u8],
    figures: TreeFigures,
) -> Result<NodeRead, BrokenLine>
    requires above_len { length above.now ≡ above_length }
    requires placed { Placed text.now at line figures }
    requires at_value { line_kind_of (line_at text.now at) ≡ price_line }
    ensures { result ≡ leaf_read (instance_of plan.entry) text.now at line figures (above_of (instance_of plan.entry) above.now) }
{
    let periods = plan.periods();
    let row = text::read_row(
        text,
        at,
        b"price=",
        periods,
        Span::PRICE.least,
        Span::PRICE.most,
    )
    .map_err(|fault| BrokenLine::by(fault, line))?;
    read_reserve(plan, text, row.next, line + 1, row.values, above, figures)
}

// The leaf of this kind whose first line starts at `at` and has this number.
// By a match: contracts name the kind, and a reader is not handed out as a value.
pub fn read_leaf(
    plan: Plan,
    text: &[u8],
    at: usize,
    line: usize,
    kind: LeafKind,
    above: &[u8],
    figures: TreeFigures,
) -> Result<NodeRead, BrokenLine>
    requires above_len { length above.now ≡ above_length }
    requires placed { Placed text.now at line figures }
    requires at_value { line_kind_of (line_at text.now at) ≡ leaf_kind kind }
    ensures { result ≡ leaf_read (instance_of plan.entry) text.now at line figures (above_of (instance_of plan.entry) above.now) }
{
    match kind {
        LeafKind::Short => read_short(plan, text, at, line, above, figures),
        LeafKind::Crowd => read_crowd(plan, text, at, line, above, figures),
        LeafKind::Stuck => read_stuck(plan, text, at, line, above, figures),
        LeafKind::Price => read_price(plan, text, at, line, above, figures),
        LeafKind::Ramp => read_ramp(plan, text, at, line, above, figures),
    }
}
