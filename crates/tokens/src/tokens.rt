// Where the next token of a text stands.
ghost use Rattle.std.specs.Prelude.{◌≡◌, ℕ, Bool, ◌≤◌, ◌<◌, length};
ghost use Rattle.tokens.specs.Tokens.{white, past, token_at, token_bytes};

// From start up to end. No token is left where the two are equal.
#[derive(Clone, Copy, Debug, PartialEq, Eq)]
pub struct Token {
    pub start: usize,
    pub end: usize,
}

// Whether a byte separates tokens.
#[tactic(auto, unfolding(crate::specs::Tokens::white))]
fn is_white(b: u8) -> bool
    ensures { result ≡ white b }
{
    matches!(b, b' ' | b'\t' | b'\n' | b'\r')
}

// The first position from `at` on whose byte does not pass.
fn past<F: Fn(u8) -> bool>(text: &[u8], at: usize, passes: F) -> usize
    requires { F.IsAlwaysCallable passes }
    ensures { (test : ℕ → Bool) → ((b : ℕ) (r : Bool) → F.post passes b r → r ≡ test b) → result ≡ past test text.now at }
{
    for i in at..text.len() {
        if !passes(text[i]) {
            return i;
        }
    }
    at.max(text.len())
}

pub fn next_token(text: &[u8], at: usize) -> Token
    ensures { result ≡ token_at text.now at }
{
    let start = past(text, at, is_white);
    let end = past(text, start, |b| !is_white(b));
    Token { start, end }
}

// A token's bytes; none where no token is left.
#[tactic(auto, using(crate::proofs::TokenLaws::no_bytes), unfolding(crate::specs::Tokens::token_bytes))]
pub fn bytes_of(text: &[u8], token: Token) -> &[u8]
    requires { token.start < token.end → token.end ≤ length text.now }
    ensures { result.now ≡ token_bytes text.now token }
{
    if token.end <= token.start {
        return &[];
    }
    &text[token.start..token.end]
}
