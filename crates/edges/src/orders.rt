// The orders, one to a line, as they are read.
use crate::words::{self, split};
use docket::held::{BoundBy, CostBy};

// An order with what it names. The docket of `keep` and of `take` is named by its place among those that are kept.
#[derive(Clone, Copy)]
pub enum Order<'a> {
    Note,
    Text(&'a [u8]),
    More(&'a [u8]),
    Fill {
        size: usize,
        byte: u8,
    },
    Cut(usize),
    Lodge(&'a [u8]),
    Give,
    Ask {
        size: usize,
        at: usize,
        name: &'a [u8],
    },
    Units {
        period: usize,
        most: usize,
        name: &'a [u8],
    },
    Fresh,
    Keep(usize),
    Take(usize),
    Set(Change),
}

// A field of the docket in hand with its new value: `outputs` are all the same.
#[derive(Clone, Copy)]
pub enum Change {
    Known(bool),
    Periods(usize),
    Outputs(u16),
    Cost(CostBy),
    Bound(BoundBy),
}

// The order that the line is, if it is one; a note is an empty line or a comment.
pub fn read(line: &[u8]) -> Option<Order<'_>> {
    if matches!(line, [] | [b'#', ..]) {
        return Some(Order::Note);
    }
    match split(line) {
        (b"give", None) => Some(Order::Give),
        (b"fresh", None) => Some(Order::Fresh),
        (word, Some(rest)) => read_rest(word, rest),
        _ => None,
    }
}

// The order that begins with this word and a space, with what follows.
fn read_rest<'a>(word: &[u8], rest: &'a [u8]) -> Option<Order<'a>> {
    match word {
        b"text" => Some(Order::Text(named(rest)?)),
        b"more" => Some(Order::More(named(rest)?)),
        b"fill" => read_fill(rest),
        b"cut" => Some(Order::Cut(number(rest)?)),
        b"lodge" => Some(Order::Lodge(named(rest)?)),
        b"ask" => read_ask(rest),
        b"units" => read_units(rest),
        b"keep" => Some(Order::Keep(read_place(rest)?)),
        b"take" => Some(Order::Take(read_place(rest)?)),
        b"set" => Some(Order::Set(read_change(rest)?)),
        _ => None,
    }
}

// A name or bytes, of which there is at least one.
fn named(s: &[u8]) -> Option<&[u8]> {
    (!s.is_empty()).then_some(s)
}

// A number that fits its type.
fn number<N: TryFrom<u64>>(s: &[u8]) -> Option<N>
where
    N::Error: Drop,
{
    N::try_from(words::number(s)?).ok()
}

// A number that fits its type, a space, and what follows.
fn number_then<N: TryFrom<u64>>(s: &[u8]) -> Option<(N, &[u8])>
where
    N::Error: Drop,
    N: Drop,
{
    let (word, rest) = split(s);
    Some((number(word)?, rest?))
}

// A size and a byte.
fn read_fill(s: &[u8]) -> Option<Order<'static>> {
    match number_then(s)? {
        (size, [byte]) => Some(Order::Fill { size, byte: *byte }),
        _ => None,
    }
}

// A size of 160 at most, a place and a name.
fn read_ask(s: &[u8]) -> Option<Order<'_>> {
    let (size, s) = number_then(s)?;
    let (at, s) = number_then(s)?;
    let name = named(s)?;
    if size > 160 {
        return None;
    }
    Some(Order::Ask { size, at, name })
}

// A period, an upper count and a name.
fn read_units(s: &[u8]) -> Option<Order<'_>> {
    let (period, s) = number_then(s)?;
    let (most, s) = number_then(s)?;
    let name = named(s)?;
    Some(Order::Units { period, most, name })
}

// The place of a docket that is kept under 1 to 7.
fn read_place(s: &[u8]) -> Option<usize> {
    match number(s)? {
        n @ 1..=7 => Some(n - 1),
        _ => None,
    }
}

// A field and its value.
fn read_change(s: &[u8]) -> Option<Change> {
    let (field, rest) = split(s);
    let value = rest?;
    match field {
        b"known" => read_known(value),
        b"periods" => Some(Change::Periods(number(value)?)),
        b"outputs" => Some(Change::Outputs(number(value)?)),
        b"cost" => read_cost(value),
        b"bound" => read_bound(value),
        _ => None,
    }
}

// 0 or 1.
fn read_known(s: &[u8]) -> Option<Change> {
    match number::<u64>(s)? {
        0 => Some(Change::Known(false)),
        1 => Some(Change::Known(true)),
        _ => None,
    }
}

// A cost and its writer.
fn read_cost(s: &[u8]) -> Option<Change> {
    let (cost, s) = number_then(s)?;
    let writer = number(s)?;
    Some(Change::Cost(CostBy { cost, writer }))
}

// A bound, with a minus or without, and its writer.
fn read_bound(s: &[u8]) -> Option<Change> {
    let (word, rest) = split(s);
    let value = match word.split_first() {
        Some((b'-', digits)) => minus(number(digits)?)?,
        _ => number(word)?,
    };
    let writer = number(rest?)?;
    Some(Change::Bound(BoundBy { value, writer }))
}

// -n, where it fits 64 bits and n is not 0.
fn minus(n: u64) -> Option<i64> {
    if n == 0 {
        None
    } else {
        0i64.checked_sub_unsigned(n)
    }
}
