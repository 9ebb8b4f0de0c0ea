// Decimal numbers in bytes: the number that starts at a place of a text.
#![tactic(auto)]

ghost use Rattle.std.specs.Prelude.{◌≡◌, true, ◌+◌, ◌-◌, ◌*◌, ◌≤◌, min, length};
ghost use Rattle.decimal.specs.Decimal.{is_digit};
ghost use Rattle.decimal.specs.NumberRead.{read_cap, digits_after, digits_at, number_at};

// Every value from this on reads as this.
const CAP: u64 = 10_000_000_000;

// So many digits are read first, where the text has so many bytes: in a loop of a fixed count, with no test for the text's end.
// Most numbers have no more.
const FIRST: usize = 5;

// The byte of the digit 0.
const ZERO: u8 = b'0';

// A number without leading zeros that stands at a place of a text: its value, or the cap, and the place after it.
#[derive(Clone, Copy)]
pub struct Number {
    pub value: u64,
    pub next: usize,
}

// Digits at a place of a text: their value, or the cap, and the place after them.
#[derive(Clone, Copy)]
struct DigitsRead {
    value: u64,
    end: usize,
}

// v with one more digit, which the byte b writes, or the cap.
fn with_digit(v: u64, b: u8) -> u64
    requires { is_digit b ≡ true }
    ensures { result ≡ min read_cap (v * 10 + (b - 48)) }
{
    if v < CAP / 10 {
        v * 10 + u64::from(b - b'0')
    } else {
        CAP
    }
}

// The digits that stand at the place `at` of a text, after digits of value v.
fn read_rest(s: &[u8], at: usize, v: u64) -> DigitsRead
    requires { v ≤ read_cap }
    ensures { result ≡ digits_after v s.now at }
{
    let mut value = v;
    for i in at..s.len() {
        let b = s[i];
        if !b.is_ascii_digit() {
            return DigitsRead { value, end: i };
        }
        value = with_digit(value, b);
    }
    DigitsRead {
        value,
        end: at.max(s.len()),
    }
}

// The digits that stand at the place `at` of a text, where FIRST bytes stand.
fn read_first(s: &[u8], at: usize) -> DigitsRead
    requires { at + 5 ≤ length s.now }
    ensures { result ≡ digits_at s.now at }
{
    let mut value: u64 = 0;
    for k in 0..FIRST {
        let b = s[at + k];
        if !b.is_ascii_digit() {
            return DigitsRead { value, end: at + k };
        }
        value = with_digit(value, b);
    }
    read_rest(s, at + FIRST, value)
}

// The digits that stand at the place `at` of a text.
#[inline(always)]
fn read_digits(s: &[u8], at: usize) -> DigitsRead
    ensures { result ≡ digits_at s.now at }
{
    if at < s.len() && FIRST <= s.len() - at {
        read_first(s, at)
    } else {
        read_rest(s, at, 0)
    }
}

// The number that starts at the place `at` of a text, or that there is none.
#[inline(always)]
pub fn read_number(s: &[u8], at: usize) -> Option<Number>
    ensures { result ≡ number_at s.now at }
{
    let DigitsRead { value, end } = read_digits(s, at);
    if end == at {
        return None;
    }
    if at + 1 < end && s[at] == ZERO {
        return None;
    }
    Some(Number { value, next: end })
}
