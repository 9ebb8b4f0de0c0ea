// The report: seven lines that show five figures, written into a lent buffer from a place that the caller gives.
#![tactic(auto)]

ghost use Rattle.std.specs.Prelude.{◌≡◌, ◌≤◌, length};
ghost use Rattle.writer.specs.Written.{over};
ghost use Rattle.report.specs.Report.{shown_lines, report_lines, written_at, placed_at};

use refusal::Refusal;
use writer::Figure;

// The figures that the lines show, each named for its key.
#[derive(Clone, Copy)]
pub struct Figures {
    pub cost: Figure,
    pub costwriter: Figure,
    pub bound: Figure,
    pub boundwriter: Figure,
    pub gap: Figure,
}

// How many bytes the lines of the figures have.
#[tactic(auto, using(crate::proofs::Lines::report_length))]
fn lines_width(f: Figures) -> usize
    ensures value { result ≡ length (report_lines f) }
    ensures upper_bound { result ≤ 171 }
{
    66 + writer::figure_width(f.cost)
        + writer::figure_width(f.costwriter)
        + writer::figure_width(f.bound)
        + writer::figure_width(f.boundwriter)
        + writer::figure_width(f.gap)
}

// How many bytes were written: a line for each key and its figure, at the front of buf, each into the part after the one before it.
fn write_shown(buf: &mut [u8], shown: &[(&[u8], Figure)]) -> usize
    requires { length (shown_lines shown.now) ≤ length buf.old }
    ensures value { result ≡ length (shown_lines shown.now) }
    ensures buf_after { buf.new ≡ over (shown_lines shown.now) buf.old }
{
    let mut n = 0;
    for (key, figure) in shown {
        n += writer::write_line(&mut buf[n..], key, *figure);
    }
    n
}

// How many bytes were written: the lines of the figures, at the front of buf.
fn write_lines(buf: &mut [u8], f: Figures) -> usize
    requires { length (report_lines f) ≤ length buf.old }
    ensures value { result ≡ length (report_lines f) }
    ensures buf_after { buf.new ≡ over (report_lines f) buf.old }
{
    let shown: [(&[u8], Figure); 5] = [
        (b"cost=", f.cost),
        (b"costwriter=", f.costwriter),
        (b"bound=", f.bound),
        (b"boundwriter=", f.boundwriter),
        (b"gap=", f.gap),
    ];
    let n = writer::write_bytes(buf, b"kind=report\n");
    let m = n + write_shown(&mut buf[n..], &shown);
    m + writer::write_bytes(&mut buf[m..], b"end=report\n")
}

// How many bytes of buffer from the place k on now hold the lines; or 43, and the buffer as it was.
pub fn write_report(f: Figures, buffer: &mut [u8], k: usize) -> Result<usize, Refusal>
    ensures answer { result ≡ written_at buffer.old k (report_lines f) }
    ensures bytes { buffer.new ≡ placed_at buffer.old k (report_lines f) }
{
    if buffer.len().saturating_sub(k) < lines_width(f) {
        return Err(refusal::refuse(43, 0, 0, 0));
    }
    Ok(write_lines(&mut buffer[k..], f))
}
