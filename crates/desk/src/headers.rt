// The header of a record, and the total length.
ghost use Rattle.std.specs.Prelude.{◌≡◌, ◌+◌, ◌*◌, ◌≤◌, eqb, length};
ghost use Rattle.costs.specs.Limits.{vars_most};
ghost use Rattle.records.specs.Words.{word_bytes, word_at};
ghost use Rattle.records.specs.Steps.{step_words};
ghost use Rattle.records.specs.Records.{header_words};
ghost use Rattle.spelling.specs.Spelling.{no_fault};
ghost use Rattle.desk.specs.Faults.{fault_in};
ghost use Rattle.desk.specs.Checking.{claim_rules, shape_rules, count_of, header_rules};

use costs::networks::Network;
use records::layout::{HEADER_WORDS, STEP_WORDS};
use records::words::word_at;
use spelling::faults::Kept;

// The first header word that breaks a rule, of a record of so many words.
pub fn header_fault(bytes: &[u8], words: usize, net: &Network) -> Kept
    requires { (net.now.vars ≤ vars_most) × (header_words ≤ words) × (words * word_bytes ≤ length bytes.now) }
    ensures { result ≡ fault_in (header_rules net.now.top net.now.vars (word_at bytes.now) words) no_fault }
{
    claim_fault(bytes, net)?;
    shape_fault(bytes, words, values_of(bytes, net.vars))
}

fn claim_fault(bytes: &[u8], net: &Network) -> Kept
    requires { header_words * word_bytes ≤ length bytes.now }
    ensures { result ≡ fault_in (claim_rules net.now.top net.now.vars (word_at bytes.now)) no_fault }
{
    if word_at(bytes, 0) != 1 {
        return Err(0);
    }
    // `usize` has no `From<u64>`
    if word_at(bytes, 1) as usize != net.vars {
        return Err(1);
    }
    let verdict = word_at(bytes, 2);
    if 1 < verdict {
        return Err(2);
    }
    let cost = word_at(bytes, 3);
    if (verdict == 0 && net.top <= cost) || (verdict == 1 && cost != net.top) {
        return Err(3);
    }
    Ok(())
}

// How many values the record is to have.
pub fn values_of(bytes: &[u8], vars: usize) -> usize
    requires { header_words * word_bytes ≤ length bytes.now }
    ensures { result ≡ count_of vars (word_at bytes.now) }
{
    if word_at(bytes, 2) == 0 { vars } else { 0 }
}

fn shape_fault(bytes: &[u8], words: usize, count: usize) -> Kept
    requires { (count ≤ vars_most) × (header_words * word_bytes ≤ length bytes.now) }
    ensures { result ≡ fault_in (shape_rules (word_at bytes.now) words count) no_fault }
{
    // `usize` has no `From<u64>`
    if word_at(bytes, 4) as usize != HEADER_WORDS {
        return Err(4);
    }
    if word_at(bytes, 5) as usize != count {
        return Err(5);
    }
    let from = HEADER_WORDS + count;
    if word_at(bytes, 6) as usize != from {
        return Err(6);
    }
    let steps = word_at(bytes, 7) as usize;
    if !length_good(words, from, steps) {
        return Err(7);
    }
    Ok(())
}

// So many steps from a word on end where the words end. Nothing is multiplied, so that no number of steps is too great.
fn length_good(words: usize, from: usize, steps: usize) -> bool
    ensures { result ≡ eqb words (from + step_words * steps) }
{
    from <= words && (words - from) % STEP_WORDS == 0 && (words - from) / STEP_WORDS == steps
}
