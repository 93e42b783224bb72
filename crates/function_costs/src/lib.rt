// The costs of one function of a text, listed or a soft sum, into the function's own entries.
#![tactic(auto)]

ghost use Rattle.std.specs.Prelude.{◌≡◌, length};
ghost use Rattle.tokens.specs.Tokens.{text_of};
ghost use Rattle.tokens.specs.Ties.Outcomes.{pos_is};
ghost use Rattle.stretches.specs.Sizes.{product};
ghost use Rattle.function_costs.specs.FunctionCosts.{keywords, marked, costs};

use answers::Refusal;
use listed_costs::read_listed;
use soft_sums::{fill_soft, read_soft};
use stretches::dims::Dims;
use tokens::words::{Word, passed, read_word};

// What the mark may lead to.
#[derive(Clone, Copy, Debug, PartialEq, Eq)]
enum Keyword {
    Wsum,
}

impl Word for Keyword {
    ghost words = { keywords };

    ghost place = { λ keyword. 0 };

    #[tactic(auto, using(tokens::proofs::WordLaws::same_pointwise), unfolding(tokens::specs::Words::place_among))]
    fn named(word: &[u8]) -> Option<Keyword> {
        if word == b"wsum".as_slice() {
            return Some(Keyword::Wsum);
        }
        None
    }
}

// What the mark leads to, into one function's entries.
#[tactic(auto, unfolding(crate::specs::FunctionCosts::marked, tokens::specs::Steps::and_then))]
fn read_marked(
    cells: &mut [u64],
    text: &[u8],
    at: usize,
    ds: Dims,
    top: u64,
) -> Result<usize, Refusal>
    requires { length cells.old ≡ product ds.sizes.now }
    ensures { pos_is result cells.new ≡ marked top ds.entry.sizes.now (text_of text.now) at }
{
    let (_, after_keyword) = read_word::<Keyword>(text, at)?;
    let (soft, next) = read_soft(text, after_keyword)?;
    fill_soft(cells, ds, top, soft);
    Ok(next)
}

// A function's costs, into its entries.
pub fn read_costs(
    cells: &mut [u64],
    text: &[u8],
    at: usize,
    ds: Dims,
    top: u64,
) -> Result<usize, Refusal>
    requires { length cells.old ≡ product ds.sizes.now }
    ensures { pos_is result cells.new ≡ costs top ds.entry.sizes.now (text_of text.now) at }
{
    if ds.sizes.is_empty() {
        return read_listed(cells, text, at, ds, top, 0);
    }
    match passed(text, at, b"-1") {
        Some(next) => read_marked(cells, text, next, ds, top),
        None => {
            let most = cells.len() as u64;
            read_listed(cells, text, at, ds, top, most)
        }
    }
}
