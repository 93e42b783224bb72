// The header.
ghost use Rattle.std.specs.Prelude.{◌≡◌};
ghost use Rattle.tokens.specs.Tokens.{text_of};
ghost use Rattle.headings.specs.Headers.{header};
ghost use Rattle.headings.specs.Ties.Outcomes.{header_is};

use answers::Refusal;
use costs::limits::{COST, FUNCTIONS, SIZE, VARS};
use tokens::numbers::number_in;
use tokens::words::read_name;

#[derive(Clone, Copy, Debug, PartialEq, Eq)]
pub struct Head {
    // N
    pub vars: usize,
    // the greatest domain size
    pub greatest: u64,
    // the number of functions
    pub functions: usize,
    // the bound k
    pub top: u64,
}

// The header, and the position after it.
#[tactic(auto, unfolding(crate::specs::Headers::header, tokens::specs::Steps::and_then, tokens::specs::Steps::demand))]
pub fn read_header(text: &[u8], at: usize) -> Result<(Head, usize), Refusal>
    ensures { header_is result ≡ header (text_of text.now) at }
{
    let after_name = read_name(text, at)?;
    let vars = number_in(text, after_name, 0, VARS as u64)?;
    let greatest = number_in(text, vars.next, 0, SIZE as u64)?;
    // where there is no variable, the greatest size is 0
    if vars.value == 0 && greatest.value != 0 {
        return Err(Refusal::Unfitting(greatest.place));
    }
    let functions = number_in(text, greatest.next, 0, FUNCTIONS as u64)?;
    let top = number_in(text, functions.next, 1, COST)?;
    let head = Head {
        vars: vars.value as usize,
        greatest: greatest.value,
        functions: functions.value as usize,
        top: top.value,
    };
    Ok((head, top.next))
}
