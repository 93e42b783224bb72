// What is printed of a refusal.
ghost use Rattle.std.specs.Prelude.{◌≡◌};
ghost use Rattle.lines.specs.Lines.{written, refusal_line};

use crate::Lines;
use answers::{Answer, number, place};

// `refused 2 at 0`
pub fn refusal(answer: Answer) -> Lines
    ensures { written result ≡ refusal_line answer }
{
    Lines::new()
        .with_word(b"refused ")
        .with_number(number(answer))
        .with_word(b" at ")
        .with_number(place(answer) as u64)
        .with_word(b"\n")
}
