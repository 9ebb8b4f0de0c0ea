// Numbers, words and lines, written at the front of a lent buffer. Whoever writes on lends the part after them.
#![tactic(auto)]

ghost use Rattle.std.specs.Prelude.{◌≡◌, ◌+◌, ◌≤◌, length};
ghost use Rattle.decimal.specs.Decimal.{digits};
ghost use Rattle.writer.specs.Written.{over, figure_of, figure, line};

// A value that a line shows: none, never, a number, or a number behind a minus.
#[derive(Clone, Copy)]
pub enum Figure {
    Missing,
    Never,
    Number(u64),
    Minus(u64),
}

// The figure that shows a whole number.
impl From<i64> for Figure {
    ghost from_gives = { λ z f. f ≡ figure_of z };

    fn from(z: i64) -> Figure {
        let size = z.unsigned_abs();
        if z < 0 {
            return Figure::Minus(size);
        }
        Figure::Number(size)
    }
}

// How many digits n has.
fn width(n: u64) -> usize
    ensures value { result ≡ length (digits n) }
    ensures upper_bound { result ≤ 20 }
{
    if n < 10 {
        return 1;
    }
    n.ilog10() as usize + 1
}

// How many bytes were written: the bytes given, at the front of buf.
pub fn write_bytes(buf: &mut [u8], bytes: &[u8]) -> usize
    requires { length bytes.now ≤ length buf.old }
    ensures value { result ≡ length bytes.now }
    ensures buf_after { buf.new ≡ over bytes.now buf.old }
{
    for (i, byte) in bytes.iter().enumerate() {
        buf[i] = *byte;
    }
    bytes.len()
}

// How many bytes were written: the digits of n, at the front of buf. One digit is written at once.
fn write_number(buf: &mut [u8], n: u64) -> usize
    requires { length (digits n) ≤ length buf.old }
    ensures value { result ≡ length (digits n) }
    ensures buf_after { buf.new ≡ over (digits n) buf.old }
{
    if n <= 9 {
        buf[0] = b'0' + n as u8;
        return 1;
    }
    let w = width(n);
    let mut m = n;
    for i in (0..w).rev() {
        buf[i] = b'0' + (m % 10) as u8;
        m /= 10;
    }
    w
}

// How many bytes f has.
#[tactic(auto, unfolding(crate::specs::Written::figure))]
pub fn figure_width(f: Figure) -> usize
    ensures value { result ≡ length (figure f) }
    ensures upper_bound { result ≤ 21 }
{
    match f {
        Figure::Missing => 4,
        Figure::Never => 5,
        Figure::Number(n) => width(n),
        Figure::Minus(n) => 1 + width(n),
    }
}

// How many bytes were written: f, at the front of buf.
#[tactic(auto, unfolding(crate::specs::Written::figure))]
// No Display: a buffer is lent, and how much of it is written is promised.
pub fn write_figure(buf: &mut [u8], f: Figure) -> usize
    requires { length (figure f) ≤ length buf.old }
    ensures value { result ≡ length (figure f) }
    ensures buf_after { buf.new ≡ over (figure f) buf.old }
{
    match f {
        Figure::Missing => write_bytes(buf, b"none"),
        Figure::Never => write_bytes(buf, b"never"),
        Figure::Number(n) => write_number(buf, n),
        Figure::Minus(n) => {
            buf[0] = b'-';
            1 + write_number(&mut buf[1..], n)
        }
    }
}

// How many bytes were written: the line of key and f, at the front of buf.
pub fn write_line(buf: &mut [u8], key: &[u8], f: Figure) -> usize
    requires { length (line key.now f) ≤ length buf.old }
    ensures value { result ≡ length (line key.now f) }
    ensures buf_after { buf.new ≡ over (line key.now f) buf.old }
{
    let k = write_bytes(buf, key);
    let w = write_figure(&mut buf[k..], f);
    buf[k + w] = b'\n';
    k + w + 1
}
