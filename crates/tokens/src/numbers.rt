// Numbers of a text.
ghost use Rattle.std.specs.Prelude.{◌≡◌};
ghost use Rattle.tokens.specs.Tokens.{text_of};
ghost use Rattle.tokens.specs.Numbers.{value_of, any_number, number_in};
ghost use Rattle.tokens.specs.Ties.Outcomes.{num_is};

use crate::limits::DIGITS;
use crate::tokens::{bytes_of, next_token};
use answers::Refusal;

// A number that was read: its value, its place and the position after it.
#[derive(Clone, Copy, Debug, PartialEq, Eq)]
pub struct Seen {
    pub value: u64,
    pub place: usize,
    pub next: usize,
}

// What a run of bytes is as a number, if it is one.
#[tactic(auto, unfolding(crate::specs::Numbers::value_of))]
fn decimal(w: &[u8]) -> Option<u64>
    ensures { result ≡ value_of w.now }
{
    if !(1..=DIGITS).contains(&w.len()) {
        return None;
    }
    let mut v: u64 = 0;
    for &b in w {
        if !b.is_ascii_digit() {
            return None;
        }
        v = v * 10 + u64::from(b - b'0');
    }
    Some(v)
}

// The number at a position.
#[tactic(auto, using(crate::proofs::TokenLaws::within), unfolding(crate::specs::Numbers::any_number, crate::specs::Tokens::text_of))]
pub fn any_number(text: &[u8], at: usize) -> Result<Seen, Refusal>
    ensures { num_is result ≡ any_number (text_of text.now) at }
{
    let token = next_token(text, at);
    match decimal(bytes_of(text, token)) {
        None => Err(Refusal::BadToken(token.start)),
        Some(value) => Ok(Seen {
            value,
            place: token.start,
            next: token.end,
        }),
    }
}

// The number at a position, from least to most.
#[tactic(auto, unfolding(crate::specs::Numbers::number_in, crate::specs::Steps::and_then, crate::specs::Steps::demand))]
pub fn number_in(text: &[u8], at: usize, least: u64, most: u64) -> Result<Seen, Refusal>
    ensures { num_is result ≡ number_in least most (text_of text.now) at }
{
    let x = any_number(text, at)?;
    if !(least..=most).contains(&x.value) {
        return Err(Refusal::OutOfRange(x.place));
    }
    Ok(x)
}
