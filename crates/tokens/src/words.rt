// Names and words of a text.
ghost use Rattle.std.specs.Prelude.{◌≡◌, ℕ, List, option_map};
ghost use Rattle.tokens.specs.Tokens.{text_of};
ghost use Rattle.tokens.specs.Words.{name, word_at, word, follows, finish};
ghost use Rattle.tokens.specs.Ties.Outcomes.{pos_is, word_is, follows_is};

use crate::names::is_name;
use crate::tokens::{bytes_of, next_token};
use answers::Refusal;

// What one of some words can stand for.
pub trait Word: Sized {
    // the words
    ghost words: { List (List ℕ) };

    // where its word stands among them
    ghost place: { Self → ℕ };

    // What a run of bytes stands for, if it is one of the words.
    fn named(word: &[u8]) -> Option<Self>
        ensures { option_map place result ≡ word_at words word.now };
}

// A name is passed; the position after it.
#[tactic(auto, using(crate::proofs::TokenLaws::within), unfolding(crate::specs::Words::name, crate::specs::Tokens::text_of))]
pub fn read_name(text: &[u8], at: usize) -> Result<usize, Refusal>
    ensures { pos_is result tt ≡ name (text_of text.now) at }
{
    let token = next_token(text, at);
    if !is_name(bytes_of(text, token)) {
        return Err(Refusal::BadToken(token.start));
    }
    Ok(token.end)
}

// One of some words, and the position after it.
#[tactic(auto, using(crate::proofs::TokenLaws::within, crate::proofs::WordLaws::word_told), unfolding(crate::specs::Words::word, crate::specs::Tokens::text_of))]
pub fn read_word<W: Word>(text: &[u8], at: usize) -> Result<(W, usize), Refusal>
    ensures { word_is W.place result ≡ word W.words (text_of text.now) at }
{
    let token = next_token(text, at);
    match W::named(bytes_of(text, token)) {
        None => Err(Refusal::BadToken(token.start)),
        Some(word) => Ok((word, token.end)),
    }
}

// The position after this word, if it is the next token.
#[tactic(auto, using(crate::proofs::TokenLaws::within, crate::proofs::WordLaws::same_pointwise), unfolding(crate::specs::Words::follows, crate::specs::Tokens::text_of))]
pub fn passed(text: &[u8], at: usize, word: &[u8]) -> Option<usize>
    ensures { follows_is at result ≡ follows word.now (text_of text.now) at }
{
    let token = next_token(text, at);
    (bytes_of(text, token) == word).then_some(token.end)
}

// Nothing but white space is left.
#[tactic(auto, using(crate::proofs::TokenLaws::within), unfolding(crate::specs::Words::finish, crate::specs::Tokens::text_of))]
pub fn read_end(text: &[u8], at: usize) -> Result<usize, Refusal>
    ensures { pos_is result tt ≡ finish (text_of text.now) at }
{
    let token = next_token(text, at);
    if !bytes_of(text, token).is_empty() {
        return Err(Refusal::TextAfter(token.start));
    }
    Ok(at)
}
