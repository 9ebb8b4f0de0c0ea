// A leaf with prices on the ramps: its rampprice line, its reserve line, and two lines for each unit.
ghost use Rattle.std.specs.Prelude.{◌≡◌, true, [], ◌*◌, ◌≤◌, ◌<◌, length, take};
ghost use Rattle.model.specs.Tree.{Multipliers};
ghost use Rattle.layout.specs.Plans.{instance_of};
ghost use Rattle.walk.specs.Marks.{above_of, above_length};
ghost use Rattle.least.specs.Limits.{GoodPrices};
ghost use Rattle.leaves.specs.Limits.{SmallLeast};
ghost use Rattle.text.specs.Lines.{line_at, one_line};
ghost use Rattle.text.specs.Forms.{plain, verdict_of};
ghost use Rattle.tree.specs.NodeLines.{line_kind_of};
ghost use Rattle.tree.specs.Refusals.{ramp_line};
ghost use Rattle.tree.specs.Places.{ramp_priced, with_steps};
ghost use Rattle.tree.specs.ReadAnswers.{leaf_read, part_read, Placed};
ghost use Rattle.tree.specs.RampReads.{Padded, inner, steps_stored, unit_read, with_required, ramp_ended};

use crate::leaf::read_reserve;
use crate::read::{BrokenLine, NodeRead};
use layout::plan::Plan;
use leaves::ramp::{add_unit, with_requirement};
use model::figures::TreeFigures;
use model::ranges::Span;
use text::Fault;

// What a unit's two good lines say: the next line's start, and what the units so far answer.
#[derive(Clone, Copy)]
pub struct UnitLines {
    pub next: usize,
    pub sum: Option<i64>,
}

// The next line's start, where the line that starts at `at` has key and a multiplier for each step, or what is wrong with it. Those read are
// stored between the first number of out and its last.
fn fill_steps(text: &[u8], at: usize, key: &[u8], out: &mut [u64]) -> Result<usize, Fault>
    requires { (one_line key.now ≡ true) × (3 ≤ length out.old) × (length out.old ≤ 49) }
    ensures answer { result ≡ verdict_of (plain key.now (inner out.old) 0 1000000000) (line_at text.now at) at }
    ensures stored { out.new ≡ steps_stored key.now text.now at out.old }
{
    let last = out.len() - 1;
    text::fill_row(
        text,
        at,
        key,
        Span::PRICE.least,
        Span::PRICE.most,
        &mut out[1..last],
    )
}

// The two lines of unit u, the first of which starts at `at` and has this number; sum is what the units before it answer. The
// numbers in up and down are written over.
fn read_unit(
    plan: Plan,
    text: &[u8],
    at: usize,
    line: usize,
    u: usize,
    q: &[u64],
    s: &[u64],
    up: &mut [u64],
    down: &mut [u64],
    above: &[u8],
    sum: Option<i64>,
) -> Result<UnitLines, BrokenLine>
    requires periods_bound { 2 ≤ (instance_of plan).periods }
    requires u_in_bounds { u < length (instance_of plan).units }
    requires good_prices { GoodPrices (instance_of plan).periods q.now s.now }
    requires padded_2 { Padded (instance_of plan).periods up.old × Padded (instance_of plan).periods down.old }
    requires numbers_in_bounds { length (instance_of plan).units * (instance_of plan).periods ≤ length above.now }
    requires small_least { SmallLeast sum × (line ≤ 1048577) }
    ensures read { result ≡ unit_read (instance_of plan.entry) text.now at line (above_of (instance_of plan.entry) above.now) q.now s.now u sum }
    ensures padded { Padded (instance_of plan.entry).periods up.new × Padded (instance_of plan.entry).periods down.new }
{
    let falls = fill_steps(text, at, b"up=", up).map_err(|fault| BrokenLine::by(fault, line))?;
    let next = fill_steps(text, falls, b"down=", down).map_err(|fault| BrokenLine::by(
        fault,
        line + 1,
    ))?;
    let sum = add_unit(plan, u, q, s, up, down, above, sum);
    Ok(UnitLines { next, sum })
}

// The leaf after its last line, where the units answered this: the next line starts at `next` and has this number.
fn end_ramp(
    plan: Plan,
    q: &[u64],
    s: &[u64],
    next: usize,
    line: usize,
    sum: Option<i64>,
    figures: TreeFigures,
) -> Result<NodeRead, BrokenLine>
    requires good_prices { GoodPrices (instance_of plan).periods q.now s.now }
    requires small_least { SmallLeast sum × (1 ≤ line) × (figures.leaves < 2000000) }
    ensures { result ≡ ramp_ended next line figures (with_required (instance_of plan.entry) q.now s.now sum) }
{
    let Some(value) = with_requirement(plan, q, s, sum) else {
        return Err(BrokenLine {
            number: 35,
            line: line - 1,
        });
    };
    Ok(NodeRead {
        next,
        line,
        figures: figures.with_leaf(Some(value)),
    })
}

// The ramp leaf with the multipliers q and s whose units' lines start at `at`, the first of them with this number.
fn read_units(
    plan: Plan,
    text: &[u8],
    at: usize,
    line: usize,
    q: &[u64],
    s: &[u64],
    above: &[u8],
    figures: TreeFigures,
) -> Result<NodeRead, BrokenLine>
    requires periods_bound { 2 ≤ (instance_of plan).periods }
    requires above_len { length above.now ≡ above_length }
    requires placed { Placed text.now at line figures }
    requires good_prices { GoodPrices (instance_of plan).periods q.now s.now }
    ensures { result ≡ part_read (instance_of plan.entry) text.now at line figures (above_of (instance_of plan.entry) above.now) (with_steps q.now s.now []) }
{
    let end = plan.periods() + 1;
    let mut up = [0u64; 49];
    let mut down = [0u64; 49];
    let mut sum = Some(0);
    let mut next = at;
    let mut here = line;
    for u in 0..plan.units() {
        let lines = read_unit(
            plan,
            text,
            next,
            here,
            u,
            q,
            s,
            &mut up[..end],
            &mut down[..end],
            above,
            sum,
        )?;
        sum = lines.sum;
        next = lines.next;
        here += 2;
    }
    end_ramp(plan, q, s, next, here, sum, figures)
}

// The ramp leaf with the multipliers q, of two periods or more, whose reserve line starts at `at` and has this number.
fn read_ramp_reserve(
    plan: Plan,
    text: &[u8],
    at: usize,
    line: usize,
    q: [u64; 48],
    above: &[u8],
    figures: TreeFigures,
) -> Result<NodeRead, BrokenLine>
    requires periods_bound { 2 ≤ (instance_of plan).periods }
    requires above_len { length above.now ≡ above_length }
    requires placed { Placed text.now at line figures }
    requires multipliers { Multipliers (instance_of plan) (take (instance_of plan).periods q) }
    ensures { result ≡ part_read (instance_of plan.entry) text.now at line figures (above_of (instance_of plan.entry) above.now) (ramp_priced (take (instance_of plan.entry).periods q)) }
{
    let n = plan.periods();
    let row = text::read_row(
        text,
        at,
        b"reserve=",
        n,
        Span::PRICE.least,
        Span::PRICE.most,
    )
    .map_err(|fault| BrokenLine::by(fault, line))?;
    read_units(
        plan,
        text,
        row.next,
        line + 1,
        &q[..n],
        &row.values[..n],
        above,
        figures,
    )
}

// The ramp leaf whose rampprice line starts at `at` and has this number. In one period it is read as a price leaf is: no step is left.
pub fn read_ramp(
    plan: Plan,
    text: &[u8],
    at: usize,
    line: usize,
    above: &[u8],
    figures: TreeFigures,
) -> Result<NodeRead, BrokenLine>
    requires above_len { length above.now ≡ above_length }
    requires placed { Placed text.now at line figures }
    requires at_value { line_kind_of (line_at text.now at) ≡ ramp_line }
    ensures { result ≡ leaf_read (instance_of plan.entry) text.now at line figures (above_of (instance_of plan.entry) above.now) }
{
    let n = plan.periods();
    let row = text::read_row(
        text,
        at,
        b"rampprice=",
        n,
        Span::PRICE.least,
        Span::PRICE.most,
    )
    .map_err(|fault| BrokenLine::by(fault, line))?;
    if n == 1 {
        return read_reserve(plan, text, row.next, line + 1, row.values, above, figures);
    }
    read_ramp_reserve(plan, text, row.next, line + 1, row.values, above, figures)
}
