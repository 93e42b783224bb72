// A record's words and steps, written into a lent buffer.
#![tactic(auto)]

ghost use Rattle.std.specs.Prelude.{◌≡◌, cond, List, [], ◌∷◌, ◌++◌, map, ◌+◌, ◌-◌, ◌*◌, ◌≤◌, length, take, replicate};
ghost use Rattle.costs.specs.Limits.{vars_most};
ghost use Rattle.records.specs.declared.steps.Step.{Step};
ghost use Rattle.records.specs.declared.steps.Step.TheVariants.{Branch, Shift, Close};
ghost use Rattle.records.specs.Words.{word_bytes, bytes_to, bytes_of};
ghost use Rattle.costs.specs.Cheapest.{value_in};
ghost use Rattle.costs.specs.Range.{list_to};
ghost use Rattle.records.specs.Records.{header_of, record_of};
ghost use Rattle.recorder.specs.Ties.Splicing.{spliced, header_bytes, Written, Behind, Adds, verdict_bit, values_of, Finished};

use costs::limits::VARS;
use records::layout::{HEADER_BYTES, HEADER_WORDS, STEP_BYTES, WORD_BYTES};
use records::steps::Step;
use shifts::moves::Move;

// Where the next step goes; `None` where there was no room for one.
pub type Spot = Option<usize>;

// "64-bit words, little-endian"
fn put_word(out: &mut [u8], at: usize, word: u64)
    requires { at + word_bytes ≤ length out.old }
    ensures { out.new ≡ spliced at (bytes_to word_bytes word) out.old }
{
    out[at..at + WORD_BYTES].copy_from_slice(&word.to_le_bytes());
}

// Words, one after the other.
fn put_words(out: &mut [u8], at: usize, words: &[u64])
    requires { at + length words.now * word_bytes ≤ length out.old }
    ensures { out.new ≡ spliced at (bytes_of words.now) out.old }
{
    for (i, &word) in words.iter().enumerate() {
        put_word(out, at + i * WORD_BYTES, word);
    }
}

// One step more, where there is room for it.
fn note_step(out: &mut [u8], spot: Spot, step: Step) -> Spot
    ensures { Adds out.old spot out.new result (step ∷ []) }
{
    let at = spot?;
    let room = out.len().checked_sub(at)?;
    if room < STEP_BYTES {
        return None;
    }
    put_words(out, at, &step.words());
    Some(at + STEP_BYTES)
}

pub fn note_branch(out: &mut [u8], spot: Spot, i: usize) -> Spot
    ensures { Adds out.old spot out.new result (Branch i ∷ []) }
{
    note_step(out, spot, Step::Branch(i))
}

// "for each closed node its pass's shifts in order and the close"
pub fn note_close(out: &mut [u8], spot: Spot, shifts: &[Move]) -> Spot
    ensures { Adds out.old spot out.new result (map Shift shifts.now ++ (Close ∷ [])) }
{
    let next = note_shifts(out, spot, shifts);
    note_step(out, next, Step::Close)
}

fn note_shifts(out: &mut [u8], spot: Spot, shifts: &[Move]) -> Spot
    ensures { Adds out.old spot out.new result (map Shift shifts.now) }
{
    let mut next = spot;
    for &one in shifts {
        next = note_step(out, next, Step::Shift(one));
    }
    next
}

// The whole record, where it is not longer than the buffer: then zeros stand behind it, else throughout. Whether it fits is all that there is to hand back.
pub fn write_record(
    out: &mut [u8],
    plan: &[u8; VARS],
    spot: Spot,
    vars: usize,
    found: bool,
    cost: u64,
) -> bool
    requires vars_le_vars_most { vars ≤ vars_most }
    requires behind { Behind out.old spot }
    ensures { (steps : List Step) → Written out.old spot steps → Finished (bytes_of (record_of vars (verdict_bit found) cost (values_of vars found plan.now) steps)) (length out.old) result out.new }
{
    let Some(at) = spot else {
        clear_from(out, 0);
        return false;
    };
    let count = value_count(vars, found);
    let by = count * WORD_BYTES;
    if out.len() - at < by {
        clear_from(out, 0);
        return false;
    }
    // The steps are moved up to make room for the plan's values.
    out.copy_within(HEADER_BYTES..at, HEADER_BYTES + by);
    let steps = (at - HEADER_BYTES) / STEP_BYTES;
    put_words(out, 0, &header_of(vars, found, cost, count, steps));
    put_values(out, plan, count);
    clear_from(out, at + by);
    true
}

pub fn value_count(vars: usize, found: bool) -> usize
    ensures { result ≡ cond found vars 0 }
{
    if found { vars } else { 0 }
}

// "A header of eight counts and offsets"
fn header_of(vars: usize, found: bool, cost: u64, count: usize, steps: usize) -> [u64; HEADER_WORDS]
    requires { count ≤ vars_most }
    ensures { result ≡ header_of vars (verdict_bit found) cost count steps }
{
    [
        1,
        vars as u64,
        // "verdict (0 cheapest, 1 none)"
        u64::from(!found),
        cost,
        HEADER_WORDS as u64,
        count as u64,
        (HEADER_WORDS + count) as u64,
        steps as u64,
    ]
}

// "Then the plan's values"
fn put_values(out: &mut [u8], plan: &[u8; VARS], vars: usize)
    requires { (vars ≤ vars_most) × (header_bytes + vars * word_bytes ≤ length out.old) }
    ensures { out.new ≡ spliced header_bytes (bytes_of (list_to vars (value_in plan.now))) out.old }
{
    for (v, &value) in plan[..vars].iter().enumerate() {
        put_word(out, HEADER_BYTES + v * WORD_BYTES, u64::from(value));
    }
}

// Zeros from a place on: std's `fill` under the promise that the rooms above know.
pub fn clear_from(out: &mut [u8], from: usize)
    requires { from ≤ length out.old }
    ensures { out.new ≡ take from out.old ++ replicate (length out.old - from) 0 }
{
    out[from..].fill(0);
}
