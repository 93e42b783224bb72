// Lines of words and numbers, as the programs print them.
#![tactic(auto)]

ghost use Rattle.std.specs.Prelude.{◌≡◌, [], ◌++◌, ◌+◌, ◌≤◌, min, length};
ghost use Rattle.costs.specs.Limits.{vars_most};
ghost use Rattle.lines.specs.Numerals.{numeral, numeral_most};
ghost use Rattle.lines.specs.Room.{head_most, choices_most, lines_most};

pub mod refusals;

use costs::limits::VARS;
use costs::plans::Plan;

// A number of 64 bits has at most this many digits.
const NUMERAL: usize = 20;
// The longest word of a verdict or a refusal has this many bytes.
const WORD: usize = 8;
// Room for two words and a number, the choices of a plan, a word, a number and the line's end.
pub const LINES: usize = WORD + NUMERAL + WORD + VARS * (1 + NUMERAL) + WORD + NUMERAL + 1;

// What is to be printed: the first so many of the bytes. No heap is used, so the room is fixed.
#[derive(Drop)]
pub struct Lines {
    pub bytes: [u8; LINES],
    pub len: usize,
    pub ghost in_room: { len ≤ lines_most },
}

impl Lines {
    ghost use Rattle.lines.specs.Lines.{written, choices_to};

    pub fn new() -> Self
        ensures says { written result ≡ [] }
        ensures len { result.len ≡ 0 }
    {
        Lines {
            bytes: [0; LINES],
            len: 0,
        }
    }

    // Room is asked for by each method that adds, and is in no type, as each asks for another amount.
    pub fn with_word(mut self, word: &[u8]) -> Self
        requires { self.len + length word.now ≤ lines_most }
        ensures says { written result ≡ written self ++ word.now }
        ensures len { result.len ≡ self.len + length word.now }
    {
        let start = self.len;
        let end = start + word.len();
        self.bytes[start..end].copy_from_slice(word);
        self.len = end;
        self
    }

    pub fn with_number(self, n: u64) -> Self
        requires { self.len + numeral_most ≤ lines_most }
        ensures says { written result ≡ written self ++ numeral n }
        ensures len { result.len ≤ self.len + numeral_most }
    {
        let mut digits = [0; NUMERAL];
        let many = io::decimal(n, &mut digits);
        self.with_word(&digits[..many])
    }

    // The choices of a plan, a space before each.
    pub fn with_choices(self, plan: Plan) -> Self
        requires { self.len ≤ head_most }
        ensures says { written result ≡ written self ++ choices_to (min plan.len vars_most) plan.choice }
        ensures len { result.len ≤ head_most + choices_most }
    {
        let mut with = self;
        for choice in &plan.choice[..plan.len.min(VARS)] {
            with = with.with_word(b" ").with_number(u64::from(*choice));
        }
        with
    }

    // The bytes that are to be printed.
    pub fn as_bytes(&self) -> &[u8]
        ensures { result.now ≡ written self.now }
    {
        &self.bytes[..self.len]
    }
}
