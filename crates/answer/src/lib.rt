// What lodging a text answers, and the line that shows it.
#![tactic(auto)]

ghost use Rattle.std.specs.Prelude.{◌≡◌, [], ◌∷◌, ◌++◌, ◌≤◌, length};
ghost use Rattle.writer.specs.Written.{over, figure};
ghost use Rattle.answer.specs.StatedAnswers.{its_cost, its_bound, stated};
ghost use Rattle.answer.specs.AnswerLines.{bound_figure, value_figures, ending, answer_line};

use model::figures::TreeFigures;
use refusal::Refusal;
use writer::Figure;

pub mod values;

// Refused; or held or passed, a schedule with its cost and a tree with its figures; or held, any other text, with none.
#[derive(Clone, Copy)]
pub enum Answer {
    Refused(Refusal),
    TextHeld,
    ScheduleHeld(u64),
    SchedulePassed(u64),
    TreeHeld(TreeFigures),
    TreePassed(TreeFigures),
}

// The figure that shows a bound.
fn figure_of_bound(bound: Option<i64>) -> Figure
    ensures { result ≡ bound_figure bound }
{
    match bound {
        None => Figure::Never,
        Some(z) => Figure::from(z),
    }
}

// How many bytes were written: a comma and f, at the front of buf.
#[inline(always)]
fn write_value(buf: &mut [u8], f: Figure) -> usize
    requires { length (44 ∷ figure f) ≤ length buf.old }
    ensures value { result ≡ length (44 ∷ figure f) }
    ensures buf_after { buf.new ≡ over (44 ∷ figure f) buf.old }
{
    buf[0] = b',';
    1 + writer::write_figure(&mut buf[1..], f)
}

// How many bytes were written: the figures, each behind a comma, and byte 10, at the front of buf.
#[inline(always)]
fn write_ending(buf: &mut [u8], figures: &[Figure]) -> usize
    requires { length (ending figures.now) ≤ length buf.old }
    ensures value { result ≡ length (ending figures.now) }
    ensures buf_after { buf.new ≡ over (ending figures.now) buf.old }
{
    let mut n = 0;
    for f in figures {
        n += write_value(&mut buf[n..], *f);
    }
    buf[n] = b'\n';
    n + 1
}

// How many bytes were written: key and the values behind it, a whole line, at the front of buf.
#[inline(always)]
fn write_shown(buf: &mut [u8], key: &[u8], figures: &[Figure]) -> usize
    requires { length (key.now ++ ending figures.now) ≤ length buf.old }
    ensures value { result ≡ length (key.now ++ ending figures.now) }
    ensures buf_after { buf.new ≡ over (key.now ++ ending figures.now) buf.old }
{
    let k = writer::write_bytes(buf, key);
    k + write_ending(&mut buf[k..], figures)
}

// How many bytes were written: the line of a refusal, at the front of buf.
#[tactic(auto, unfolding(crate::specs::AnswerLines::answer_line))]
pub fn write_refusal(buf: &mut [u8], refusal: Refusal) -> usize
    requires { length (answer_line (stated (Answer.Refused refusal))) ≤ length buf.old }
    ensures value { result ≡ length (answer_line (stated (Answer.Refused refusal))) }
    ensures buf_after { buf.new ≡ over (answer_line (stated (Answer.Refused refusal))) buf.old }
{
    let figures = [
        Figure::Number(refusal.number),
        Figure::Number(refusal.line as u64),
        Figure::Number(refusal.unit as u64),
        Figure::Number(refusal.period as u64),
    ];
    write_shown(buf, b"answer=refused", &figures)
}

// The figures that show a tree's bound, splits and leaves.
fn tree_figures(figures: TreeFigures) -> [Figure; 3]
    ensures { result ≡ value_figures (its_bound figures) }
{
    [
        figure_of_bound(figures.bound),
        Figure::Number(figures.splits as u64),
        Figure::Number(figures.leaves as u64),
    ]
}

// How many bytes were written: the line that shows the answer, at the front of buf.
#[tactic(auto, unfolding(crate::specs::AnswerLines::answer_line))]
pub fn write_answer(buf: &mut [u8], answer: Answer) -> usize
    requires { length (answer_line (stated answer)) ≤ length buf.old }
    ensures value { result ≡ length (answer_line (stated answer)) }
    ensures buf_after { buf.new ≡ over (answer_line (stated answer)) buf.old }
{
    match answer {
        Answer::Refused(r) => write_refusal(buf, r),
        Answer::TextHeld => write_shown(buf, b"answer=held", &[]),
        Answer::ScheduleHeld(c) => write_shown(buf, b"answer=held", &[Figure::Number(c)]),
        Answer::SchedulePassed(c) => write_shown(buf, b"answer=passed", &[Figure::Number(c)]),
        Answer::TreeHeld(f) => write_shown(buf, b"answer=held", &tree_figures(f)),
        Answer::TreePassed(f) => write_shown(buf, b"answer=passed", &tree_figures(f)),
    }
}
