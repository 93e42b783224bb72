// The verdict on a text, in the lines that document 01 prints.
#![tactic(auto)]

ghost use Rattle.std.specs.Prelude.{◌≡◌, ◌+◌, ◌≤◌};
ghost use Rattle.lines.specs.Room.{head_most, choices_most};
ghost use Rattle.lines.specs.Lines.{written};
ghost use Rattle.verdict.specs.Verdicts.{outcome_lines, searched_lines, printed};

use costs::limits::ENTRIES;
use engines::results::Searched;
use lines::Lines;
use lines::refusals::refusal;
use reader::reading::read;
use search::search;

// "The program's budget is 1,000,000 nodes"
const BUDGET: u64 = 1_000_000;

// Reads the text and searches its network, and asks for no record.
pub fn verdict(text: &[u8]) -> Lines
    ensures { written result ≡ printed text.now }
{
    let mut held = [0; ENTRIES];
    let read = read(text, &mut held);
    if read.answer.is_err() {
        return refusal(read.answer);
    }
    let net = read.network;
    let mut work = [0; ENTRIES];
    let mut no_record = [0; 1];
    let found = search(net, &held, &mut work, &mut no_record, false, BUDGET);
    searched(net.top, found)
}

fn searched(top: u64, found: Searched) -> Lines
    ensures { written result ≡ searched_lines top found }
{
    if found.answer.is_err() {
        return refusal(found.answer);
    }
    let many = found.nodes;
    outcome(top, found)
        .with_word(b"\nnodes ")
        .with_number(many)
        .with_word(b"\n")
}

fn outcome(top: u64, found: Searched) -> Lines
    ensures says { written result ≡ outcome_lines top found }
    ensures len { result.len ≤ head_most + choices_most }
{
    if top <= found.cost {
        return Lines::new().with_word(b"none ").with_number(found.cost);
    }
    Lines::new()
        .with_word(b"cost ")
        .with_number(found.cost)
        .with_word(b"\nplan")
        .with_choices(found.plan)
}
