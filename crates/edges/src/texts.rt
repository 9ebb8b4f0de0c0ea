// The text that orders make: the front of a lent array, of so many bytes as its size says.
ghost use Rattle.std.specs.Prelude.{◌≡◌, ℕ, ◌<◌, ◌≤◌, map, length, take};
ghost use Rattle.writer.specs.Written.{over};
ghost use Rattle.edges.specs.Texts.{byte_of};

use crate::orders::Order;

// The byte that b stands for: byte 10 for a slash, else b.
fn byte_of(b: u8) -> u8
    ensures { result ≡ byte_of b }
{
    match b {
        b'/' => b'\n',
        _ => b,
    }
}

// Puts what f makes of the bytes of s at the front of buf.
pub fn put<F: Fn(u8) -> u8>(buf: &mut [u8], s: &[u8], f: F)
    requires room { length s.now ≤ length buf.old }
    requires callable { F.IsAlwaysCallable f }
    ensures { (g : ℕ → ℕ) → ((b : ℕ) (r : ℕ) → b < 256 → F.post f b r → r ≡ g b) → buf.new ≡ over (map g s.now) buf.old }
{
    for (i, b) in s.iter().enumerate() {
        buf[i] = f(*b);
    }
}

// The text of this size.
pub fn front(text: &[u8], size: usize) -> &[u8]
    ensures { result.now ≡ take size text.now }
{
    text.get(..size).unwrap_or(text)
}

// The text's size, where it goes on after its first `size` bytes with those that s stands for.
fn more(size: usize, s: &[u8], text: &mut [u8]) -> Option<usize> {
    let end = size.checked_add(s.len())?;
    put(text.get_mut(size..end)?, s, byte_of);
    Some(end)
}

// The text's size, where it goes on with a byte, up to the size `to`.
fn fill(size: usize, to: usize, byte: u8, text: &mut [u8]) -> Option<usize> {
    text.get_mut(size..to)?.fill(byte_of(byte));
    Some(to)
}

// The text's size after the order, where the order fits the text.
pub fn run(order: Order<'_>, size: usize, text: &mut [u8]) -> Option<usize> {
    match order {
        Order::Text(s) => more(0, s, text),
        Order::More(s) => more(size, s, text),
        Order::Fill { size: to, byte } => fill(size, to, byte, text),
        Order::Cut(to) => (to <= size).then_some(to),
        _ => Some(size),
    }
}
