// The soft sum: what follows `wsum`.
#![tactic(auto)]

pub mod limits;

ghost use Rattle.std.specs.Prelude.{◌≡◌, ◌+◌, ◌≤◌, length};
ghost use Rattle.tokens.specs.Tokens.{text_of};
ghost use Rattle.soft_sums.specs.SoftLimits.{base_most, limit_most};
ghost use Rattle.stretches.specs.Sizes.{product};
ghost use Rattle.soft_sums.specs.Soft.{modes, mode_place, comparators, comparator_place, soft_sum, gap, gap_cost, values_at, total, soft_cost, soft_costs};
ghost use Rattle.soft_sums.specs.Ties.Outcomes.{soft_is, Fair};

use crate::limits::{BASE, LIMIT};
use answers::Refusal;
use stretches::dims::Dims;
use tokens::numbers::number_in;
use tokens::words::{Word, read_word};

// M
#[derive(Clone, Copy, Debug, PartialEq, Eq)]
pub enum Mode {
    Hard,
    Lin,
    Quad,
}

// An `if` for each word: a `match` on the bytes was tried, and leaves a goal for each byte that differs.
impl Word for Mode {
    ghost words = { modes };

    ghost place = { mode_place };

    #[tactic(auto, using(tokens::proofs::WordLaws::same_pointwise), unfolding(tokens::specs::Words::place_among))]
    fn named(word: &[u8]) -> Option<Mode> {
        if word == b"hard".as_slice() {
            return Some(Mode::Hard);
        }
        if word == b"lin".as_slice() {
            return Some(Mode::Lin);
        }
        if word == b"quad".as_slice() {
            return Some(Mode::Quad);
        }
        None
    }
}

// C
#[derive(Clone, Copy, Debug, PartialEq, Eq)]
pub enum Comparator {
    Equal,
    Unequal,
    Below,
    AtMost,
    Above,
    AtLeast,
}

// An `if` for each word, as for `Mode`.
impl Word for Comparator {
    ghost words = { comparators };

    ghost place = { comparator_place };

    #[tactic(auto, using(tokens::proofs::WordLaws::same_pointwise), unfolding(tokens::specs::Words::place_among))]
    fn named(word: &[u8]) -> Option<Comparator> {
        if word == b"==".as_slice() {
            return Some(Comparator::Equal);
        }
        if word == b"!=".as_slice() {
            return Some(Comparator::Unequal);
        }
        if word == b"<".as_slice() {
            return Some(Comparator::Below);
        }
        if word == b"<=".as_slice() {
            return Some(Comparator::AtMost);
        }
        if word == b">".as_slice() {
            return Some(Comparator::Above);
        }
        if word == b">=".as_slice() {
            return Some(Comparator::AtLeast);
        }
        None
    }
}

// M, base, C and K.
#[derive(Clone, Copy, Debug, PartialEq, Eq)]
pub struct Soft {
    pub mode: Mode,
    pub base: u64,
    pub comparator: Comparator,
    pub limit: u64,
}

// The soft sum, and the position after it.
#[tactic(auto, using(crate::proofs::SoftLaws::mode_placed, crate::proofs::SoftLaws::comparator_placed), unfolding(crate::specs::Soft::soft_sum, tokens::specs::Steps::and_then))]
pub fn read_soft(text: &[u8], at: usize) -> Result<(Soft, usize), Refusal>
    ensures { soft_is result ≡ soft_sum (text_of text.now) at }
{
    let (mode, after_mode) = read_word(text, at)?;
    let base = number_in(text, after_mode, 0, BASE)?;
    let (comparator, after_comparator) = read_word(text, base.next)?;
    let limit = number_in(text, after_comparator, 0, LIMIT)?;
    let soft = Soft {
        mode,
        base: base.value,
        comparator,
        limit: limit.value,
    };
    Ok((soft, limit.next))
}

// Each entry's cost.
#[tactic(auto, unfolding(crate::specs::Soft::soft_costs))]
pub fn fill_soft(cells: &mut [u64], ds: Dims, top: u64, soft: Soft)
    requires cells_len { length cells.old ≡ product ds.sizes.now }
    requires fair { Fair soft }
    ensures { cells.new ≡ soft_costs top ds.entry.sizes.now soft }
{
    for (i, cell) in cells.iter_mut().enumerate() {
        *cell = soft_cost(ds, top, soft, i as u64);
    }
}

#[tactic(auto, unfolding(crate::specs::Soft::soft_cost))]
fn soft_cost(ds: Dims, top: u64, soft: Soft, entry: u64) -> u64
    requires { Fair soft }
    ensures { result ≡ soft_cost top soft ds.entry.sizes.now entry }
{
    let gap = gap_of(soft.comparator, soft.limit, sum_at(ds, entry));
    gap_cost(top, soft.mode, soft.base, gap)
}

// The total of an entry's values.
fn sum_at(ds: Dims, entry: u64) -> u64
    ensures { (result ≡ total (values_at ds.entry.sizes.now entry)) × (result ≤ limit_most) }
{
    let mut rest = entry;
    let mut sum: u64 = 0;
    for d in ds.sizes.iter().rev() {
        sum += rest % d;
        rest /= d;
    }
    sum
}

// How far a sum is from what a comparator asks.
#[tactic(auto, unfolding(crate::specs::Soft::gap, crate::specs::Soft::gap_below))]
fn gap_of(comparator: Comparator, limit: u64, sum: u64) -> u64
    requires { (limit ≤ limit_most) × (sum ≤ limit_most) }
    ensures { (result ≡ gap comparator limit sum) × (result ≤ limit_most + 1) }
{
    match comparator {
        Comparator::Equal => limit.abs_diff(sum),
        Comparator::Unequal => u64::from(sum == limit),
        Comparator::Below => (sum + 1).saturating_sub(limit),
        Comparator::AtMost => sum.saturating_sub(limit),
        Comparator::Above => (limit + 1).saturating_sub(sum),
        Comparator::AtLeast => limit.saturating_sub(sum),
    }
}

#[tactic(auto, unfolding(crate::specs::Soft::gap_cost))]
fn gap_cost(top: u64, mode: Mode, base: u64, gap: u64) -> u64
    requires { (base ≤ base_most) × (gap ≤ limit_most + 1) }
    ensures { result ≡ gap_cost top mode base gap }
{
    match mode {
        Mode::Hard => { if gap == 0 { 0 } else { top } }
        Mode::Lin => top.min(base * gap),
        Mode::Quad => top.min(base * (gap * gap)),
    }
}
