// What holds of several rooms together: a search whose record the desk has checked.
#![tactic(auto)]

ghost use Rattle.std.specs.Prelude.{◌≡◌, ℕ, ◌+◌, ◌*◌, ◌≤◌, true, length, get_or};
ghost use Rattle.answers.specs.Answers.{Done};
ghost use Rattle.records.specs.Words.{word_bytes};
ghost use Rattle.records.specs.Records.{header_words};
ghost use Rattle.engines.specs.Results.{SearchLeft};
ghost use Rattle.search.specs.Doors.{search_leaves, CountsSteps};
ghost use Rattle.agreed.specs.Filed.{size_told, Filed};

use answers::Answer;
use costs::networks::Network;
use desk::check;
use engines::results::Searched;
use records::layout::{STEP_WORDS, WORD_BYTES};
use records::words::word_at;
use search::search;

// No `Result`: the promise of `search_and_check` speaks of both fields, also beside a refusal.
#[derive(Clone, Copy, Debug, PartialEq, Eq)]
pub struct Checked {
    pub found: Searched,
    // the desk's answer to the record; where the search was refused there is none, and its refusal stands here
    pub answer: Answer,
}

// Searches with a record and has the desk check it: of a finished search, the desk refuses nothing, and the node count is that of the record's steps.
pub fn search_and_check(
    net: Network,
    held: &[u64],
    work: &mut [u64],
    out: &mut [u8],
    budget: u64,
) -> Checked
    ensures { (record { result = result.found; out = out.new } ≡ search_leaves net held.now (length work.old) (length out.old) true budget) × (result.answer ≡ result.found.answer) × (result.found.answer ≡ Done → Filed net held.now (length work.old) out.new × CountsSteps out.new result.found.nodes) × ((j : ℕ) → get_or work.new j 0 ≡ 0) }
{
    let found = search(net, held, work, out, true, budget);
    let answer = desk_answer(net, held, work, out, found.answer);
    Checked { found, answer }
}

fn desk_answer(net: Network, held: &[u64], work: &mut [u64], out: &[u8], said: Answer) -> Answer
    requires { said ≡ Done → Filed net held.now (length work.old) out.now }
    ensures { (result ≡ said) × (((j : ℕ) → get_or work.old j 0 ≡ 0) → (j : ℕ) → get_or work.new j 0 ≡ 0) }
{
    said?;
    let size = record_size(out);
    let bytes = &out[..size];
    check(net, held, work, bytes)
}

// The bytes of a record that stands at the front of a buffer.
fn record_size(out: &[u8]) -> usize
    requires { (header_words * word_bytes ≤ length out.now) × (size_told out.now ≤ length out.now) }
    ensures { result ≡ size_told out.now }
{
    let first = word_at(out, 6) as usize;
    let steps = word_at(out, 7) as usize;
    (first + steps * STEP_WORDS) * WORD_BYTES
}
