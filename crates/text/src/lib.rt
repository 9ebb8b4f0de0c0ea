// Lines of a text: `key=value`, the values decimal numbers joined by commas, each line ended by byte 10.
#![tactic(auto)]

ghost use Rattle.std.specs.Prelude.{◌≡◌, true, not, ◌&&◌, ◌||◌, ◌+◌, ◌≤◌, ◌<◌, leb, length, drop, set};
ghost use Rattle.std.specs.List.{count_by};
ghost use Rattle.decimal.specs.NumberRead.{read_cap};
ghost use Rattle.text.specs.Lines.{one_line, begins, line_at, is_line};
ghost use Rattle.text.specs.Forms.{byte_is, all_within, all_below, fault_number, verdict_of, row_of, form, plain};
ghost use Rattle.text.specs.Scan.{ended_at, field_at, values_at, keyed_at, stored_at, values_verdict, minus_of};

// A value at a place: its size, whether it has a minus, the place after the byte that ends it, and whether that byte ends the line.
#[derive(Clone, Copy)]
struct Field {
    size: u64,
    minus: bool,
    next: usize,
    last: bool,
}

// The values up to a line's end: how many they are, the next line's start, and whether one has a minus.
#[derive(Clone, Copy)]
struct Values {
    count: usize,
    next: usize,
    minus: bool,
}

// What is wrong with a line of numbers: 12, 13, 14, and of a unit's line 15 (document 01, Numbers that come from the text).
#[derive(Clone, Copy, PartialEq, Eq)]
pub enum Fault {
    Malformed,
    OutOfRange,
    WrongCount,
    Disordered,
}

impl From<Fault> for u64 {
    ghost from_gives = { λ fault number. number ≡ fault_number fault };

    fn from(fault: Fault) -> u64 {
        match fault {
            Fault::Malformed => 12,
            Fault::OutOfRange => 13,
            Fault::WrongCount => 14,
            Fault::Disordered => 15,
        }
    }
}

// A good line of numbers: the next line's start, whether the value that may carry a minus does, and the values without the sign.
#[derive(Clone, Copy)]
pub struct Row {
    pub next: usize,
    pub minus: bool,
    pub values: [u64; 48],
}

// What a text's first line says.
#[derive(Clone, Copy, PartialEq, Eq)]
pub enum Kind {
    Unknown,
    Problem,
    Schedule,
    Tree,
}

// What stands where a text's end line is due: not that line, that line with something after it, or that line as the last.
#[derive(Clone, Copy, PartialEq, Eq)]
pub enum End {
    Missing,
    Followed,
    Last,
}

// Whether the byte b stands at the place `at`.
fn byte_is(s: &[u8], at: usize, b: u8) -> bool
    ensures { result ≡ byte_is (drop at s.now) b }
{
    at < s.len() && s[at] == b
}

// Whether the bytes of key stand at the place `at`.
pub fn starts(s: &[u8], at: usize, key: &[u8]) -> bool
    ensures { result ≡ begins key.now (drop at s.now) }
{
    for j in 0..key.len() {
        if !byte_is(s, at + j, key[j]) {
            return false;
        }
    }
    true
}

// Whether the line that starts at `at` is this word.
pub fn is_line(s: &[u8], at: usize, word: &[u8]) -> bool
    requires { one_line word.now ≡ true }
    ensures { result ≡ is_line word.now (line_at s.now at) }
{
    starts(s, at, word) && byte_is(s, at + word.len(), b'\n')
}

// The value without a sign that starts at `at`.
#[inline(always)]
fn read_unsigned(s: &[u8], at: usize, minus: bool) -> Option<Field>
    ensures { result ≡ ended_at s.now at minus }
{
    let number = decimal::read_number(s, at)?;
    if s.len() <= number.next {
        return None;
    }
    let last = match s[number.next] {
        b'\n' => true,
        b',' => false,
        _ => return None,
    };
    Some(Field {
        size: number.value,
        minus,
        next: number.next + 1,
        last,
    })
}

// Whether no minus may stand before the place `from`: the value may not carry one, or a 0 stands there.
fn bars_minus(s: &[u8], from: usize, signed: bool) -> bool
    ensures { result ≡ (not signed || byte_is (drop from s.now) 48) }
{
    !signed || byte_is(s, from, b'0')
}

// The value that starts at `at`, which may carry a minus where `signed` is true.
fn read_field(s: &[u8], at: usize, signed: bool) -> Option<Field>
    ensures { result ≡ field_at s.now at signed }
{
    if !byte_is(s, at, b'-') {
        return read_unsigned(s, at, false);
    }
    if bars_minus(s, at + 1, signed) {
        return None;
    }
    read_unsigned(s, at + 1, true)
}

// Stores v at k where k is within out.
fn put(out: &mut [u64], k: usize, v: u64)
    ensures { out.new ≡ set out.old k v }
{
    if k < out.len() {
        out[k] = v;
    }
}

// The values from `at` to the line's end, of which number `signed` may carry a minus. Those that fit are stored in out.
// By while: each value says where the next one begins.
fn read_values(s: &[u8], at: usize, signed: usize, out: &mut [u64]) -> Option<Values>
    ensures answer { result ≡ (values_at s.now at signed out.old).answer }
    ensures stored { out.new ≡ (values_at s.now at signed out.old).out }
{
    let mut i = at;
    let mut k: usize = 0;
    let mut minus = false;
    while i < s.len() {
        let number = k + 1;
        let f = read_field(s, i, number == signed)?;
        put(out, k, f.size);
        k = number;
        i = f.next;
        minus |= f.minus;
        if f.last {
            return Some(Values {
                count: k,
                next: i,
                minus,
            });
        }
    }
    None
}

// Whether each number of v is from its low to its high.
fn all_within(v: &[u64], lows: &[u64], highs: &[u64]) -> bool
    requires { (length v.now ≤ length lows.now) × (length v.now ≤ length highs.now) }
    ensures { result ≡ all_within v.now lows.now highs.now }
{
    for i in 0..v.len() {
        if v[i] < lows[i] || highs[i] < v[i] {
            return false;
        }
    }
    true
}

// How many numbers of v are not from lo to hi. The loop goes on whatever it finds, so that several are looked at at once; within its callers, which read trees too, it would take
// registers from what they do between rows.
#[inline(never)]
fn count_outside(v: &[u64], lo: u64, hi: u64) -> u64
    ensures { result ≡ count_by (λ x. not (leb lo x && leb x hi)) v.now }
{
    let mut n = 0;
    for x in v {
        n += u64::from(*x < lo || hi < *x);
    }
    n
}

// The values of the line that starts at `at` with key, of which number `signed` may carry a minus. Those that fit are stored
// in out.
fn read_keyed(s: &[u8], at: usize, key: &[u8], signed: usize, out: &mut [u64]) -> Option<Values>
    ensures answer { result ≡ (keyed_at key.now s.now at signed out.old).answer }
    ensures stored { out.new ≡ (keyed_at key.now s.now at signed out.old).out }
{
    if !starts(s, at, key) {
        return None;
    }
    read_values(s, at + key.len(), signed, out)
}

// What a line is whose values are these, where n are due and `within` says whether those stored are in range.
fn judge_values(read: Option<Values>, n: usize, within: bool) -> Result<usize, Fault>
    ensures { result ≡ values_verdict read n within }
{
    let Some(values) = read else {
        return Err(Fault::Malformed);
    };
    if values.count != n {
        return Err(Fault::WrongCount);
    }
    if !within {
        return Err(Fault::OutOfRange);
    }
    Ok(values.next)
}

// Whether one of these values has a minus.
fn has_minus(read: Option<Values>) -> bool
    ensures { result ≡ minus_of read }
{
    read.is_some_and(|values| values.minus)
}

// The next line's start, where the line that starts at `at` is good, or what is wrong with it. It is known to begin with key, which is not compared
// again, and has a value for each of lows, none with a minus. Those read are stored in out, as far as they fit.
pub fn fill_line(
    s: &[u8],
    at: usize,
    key: &[u8],
    lows: &[u64],
    highs: &[u64],
    out: &mut [u64],
) -> Result<usize, Fault>
    requires key_value { (one_line key.now ≡ true) × ((length lows.now ≤ 48) × ((length highs.now ≡ length lows.now) × ((all_below highs.now ≡ true) × (length out.old ≡ length lows.now)))) }
    requires s_value { begins key.now (drop at s.now) ≡ true }
    ensures answer { result ≡ verdict_of (form key.now 0 lows.now highs.now) (line_at s.now at) at }
    ensures stored { out.new ≡ stored_at key.now s.now at out.old }
{
    let read = read_values(s, at + key.len(), 0, out);
    let within = all_within(out, lows, highs);
    judge_values(read, out.len(), within)
}

// The next line's start, where the line that starts at `at` is good, or what is wrong with it: it has key and a value for each place of out, each from
// lo to hi. Those read are stored in out, as far as they fit.
pub fn fill_row(
    s: &[u8],
    at: usize,
    key: &[u8],
    lo: u64,
    hi: u64,
    out: &mut [u64],
) -> Result<usize, Fault>
    requires { (one_line key.now ≡ true) × ((length out.old ≤ 48) × (hi < read_cap)) }
    ensures answer { result ≡ verdict_of (plain key.now (length out.old) lo hi) (line_at s.now at) at }
    ensures stored { out.new ≡ stored_at key.now s.now at out.old }
{
    let read = read_keyed(s, at, key, 0, out);
    let within = count_outside(out, lo, hi) == 0;
    judge_values(read, out.len(), within)
}

// The line that starts at `at` with key and has a value for each of lows, of which number `signed` may carry a minus.
pub fn read_line(
    s: &[u8],
    at: usize,
    key: &[u8],
    signed: usize,
    lows: &[u64],
    highs: &[u64],
) -> Result<Row, Fault>
    requires { (one_line key.now ≡ true) × ((length lows.now ≤ 48) × ((length highs.now ≡ length lows.now) × (all_below highs.now ≡ true))) }
    ensures { result ≡ row_of (form key.now signed lows.now highs.now) (line_at s.now at) at }
{
    let mut values = [0u64; 48];
    let n = lows.len();
    let read = read_keyed(s, at, key, signed, &mut values);
    let within = all_within(&values[..n], lows, highs);
    let next = judge_values(read, n, within)?;
    Ok(Row {
        next,
        minus: has_minus(read),
        values,
    })
}

// The line that starts at `at` with key and has n values, each from lo to hi.
pub fn read_row(s: &[u8], at: usize, key: &[u8], n: usize, lo: u64, hi: u64) -> Result<Row, Fault>
    requires { (one_line key.now ≡ true) × ((n ≤ 48) × (hi < read_cap)) }
    ensures { result ≡ row_of (plain key.now n lo hi) (line_at s.now at) at }
{
    let mut values = [0u64; 48];
    let next = fill_row(s, at, key, lo, hi, &mut values[..n])?;
    Ok(Row {
        next,
        minus: false,
        values,
    })
}
