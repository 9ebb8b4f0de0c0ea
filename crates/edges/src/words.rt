// The words of an order.
ghost use Rattle.std.specs.Prelude.{◌≡◌, MatchOption, position};
ghost use Rattle.decimal.specs.Decimal.{canonical};
ghost use Rattle.edges.specs.Words.{is_space, first_word, rest_of};
ghost use Rattle.edges.specs.Numbers.{value_below, number_below};

// The place of the first space, if there is one.
fn space(s: &[u8]) -> Option<usize>
    ensures { result ≡ position is_space s.now }
{
    s.iter().position(|b| *b == b' ')
}

// The first word, and what follows it and a space, if there is a space.
pub fn split(s: &[u8]) -> (&[u8], Option<&[u8]>)
    ensures first { result.0.now ≡ first_word s.now }
    ensures rest { MatchOption result.1 (position is_space s.now ≡ None) (λ r. r.now ≡ rest_of s.now) }
{
    match space(s) {
        Some(place) => (&s[..place], Some(&s[place + 1..])),
        None => (s, None),
    }
}

// Whether s may begin a number: it has a byte, and the first of several is not 0.
fn is_canonical(s: &[u8]) -> bool
    ensures { result ≡ canonical s.now }
{
    !matches!(s, [] | [b'0', _, ..])
}

// The value of the digits that s is, where it fits 64 bits.
#[tactic(auto, using(crate::proofs::OrderNumbers::left_end, crate::proofs::OrderNumbers::left_large, crate::proofs::OrderNumbers::left_other))]
fn value(s: &[u8]) -> Option<u64>
    ensures { result ≡ value_below s.now }
{
    let mut v: u64 = 0;
    for b in s {
        if !b.is_ascii_digit() {
            return None;
        }
        v = v.checked_mul(10)?.checked_add(u64::from(*b - b'0'))?;
    }
    Some(v)
}

// The number that s is, where it fits 64 bits.
pub fn number(s: &[u8]) -> Option<u64>
    ensures { result ≡ number_below s.now }
{
    if is_canonical(s) { value(s) } else { None }
}
