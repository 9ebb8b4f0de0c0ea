// How an input is cut into texts: after each line that begins `end=`.
#![tactic(auto)]

ghost use Rattle.std.specs.Prelude.{◌≡◌, ◌&&◌, ◌+◌, ◌-◌, ◌*◌, ◌/◌, leb, length, drop};
ghost use Rattle.text.specs.Lines.{line_at};
ghost use Rattle.pieces.specs.Search.{without_e, to_e};
ghost use Rattle.pieces.specs.Pieces.{line_bytes, piece_after};

// Most lines do not begin with e, byte 101, and where they end does not matter: the next line that does is looked for in parts of 32 bytes,
// each with the byte behind it, since the compiler compares a whole part at once, and then byte by byte.

// Whether no byte 10 of the part has an e behind it; all of them are looked at, by `&`, so that the loop does not branch.
fn is_without_e(part: &[u8]) -> bool
    ensures { result ≡ without_e part.now }
{
    let mut without = true;
    for i in 1..part.len() {
        without &= !((part[i - 1] == 10) & (part[i] == 101));
    }
    without
}

// Whether the next line that begins with e starts more than 32 bytes after `at`, and the input goes on so far.
// It returns early, since to look through a part costs more than the tests before it.
fn spans_part(s: &[u8], at: usize) -> bool
    ensures { result ≡ leb 33 (to_e (drop at s.now)) }
{
    if s.len() < 33 || s.len() - 33 < at {
        return false;
    }
    is_without_e(&s[at..at + 33])
}

// The place after the whole parts of 32 bytes before the byte 10 that stands in front of that line, or before the input's last byte.
fn skip_parts(s: &[u8], at: usize) -> usize
    ensures { result ≡ at + (to_e (drop at s.now) - 1) / 32 * 32 }
{
    let mut i = at;
    while spans_part(s, i) {
        i += 32;
    }
    i
}

// The place of that line, or the input's end.
fn next_e(s: &[u8], at: usize) -> usize
    ensures { result ≡ at + to_e (drop at s.now) }
{
    let from = skip_parts(s, at);
    for i in from..s.len() {
        if text::starts(s, i, b"\ne") {
            return i + 1;
        }
    }
    from.max(s.len())
}

// The place after the line that starts at `at`.
fn line_end(s: &[u8], at: usize) -> usize
    ensures { result ≡ at + length (line_bytes (line_at s.now at)) }
{
    for i in at..s.len() {
        if s[i] == 10 {
            return i + 1;
        }
    }
    at.max(s.len())
}

// The place after the piece that starts at `at`.
// By while: each line says where to go on.
pub fn piece_end(s: &[u8], at: usize) -> usize
    ensures { result ≡ piece_after s.now at }
{
    let mut i = at;
    while i < s.len() {
        if text::starts(s, i, b"end=") {
            return line_end(s, i);
        }
        i = next_e(s, i);
    }
    i
}
