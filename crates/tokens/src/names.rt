// What a name is: document 01's length, request M-101's bytes.
ghost use Rattle.std.specs.Prelude.{◌≡◌};
ghost use Rattle.tokens.specs.Names.{is_name};

use crate::limits::{NAME, NAME_BYTE_LEAST, NAME_BYTE_MOST};

// Whether a run of bytes is a name. It need not be a token: a separator in it is refused like any other byte outside the range.
#[tactic(auto, unfolding(crate::specs::Names::is_name))]
pub fn is_name(w: &[u8]) -> bool
    ensures { result ≡ is_name w.now }
{
    (1..=NAME).contains(&w.len())
        && w.iter()
            .all(|b| (NAME_BYTE_LEAST..=NAME_BYTE_MOST).contains(b))
}
