// The check of a whole record.
ghost use Rattle.std.specs.Prelude.{◌≡◌, cond, [], ◌∷◌, ◌+◌, ◌*◌, ◌≤◌, eqb, length};
ghost use Rattle.std.proofs.Math.Option.{none};
ghost use Rattle.costs.specs.Net.{costs_of};
ghost use Rattle.costs.specs.Networks.{stands};
ghost use Rattle.records.specs.Words.{word_bytes, word_at};
ghost use Rattle.records.specs.Steps.{step_words, step_at};
ghost use Rattle.records.specs.Trees.{root};
ghost use Rattle.records.specs.Records.{header_words, claims};
ghost use Rattle.desk.specs.Faults.{fault_in};
ghost use Rattle.desk.specs.Checking.{count_of, plan_rules, bytes_fault, checked};
ghost use Rattle.spelling.specs.Spelling.{no_fault, steps_fault};

use crate::headers::{header_fault, values_of};
use crate::values::{plan_told, values_fault};
use answers::{Answer, Refusal};
use costs::networks::Network;
use judging::judge;
use judging::judged::Judged;
use prices::prices::price_of;
use records::layout::{HEADER_BYTES, HEADER_WORDS, WORD_BYTES};
use records::words::word_at;
use spelling::claims::Claimed;
use spelling::faults::Kept;
use spelling::steps::steps_fault;
use tables::copy_in;

// The answer: refusals 8 and 7, then 13 with its place.
pub fn answered(net: &Network, held: &[u64], work: &mut [u64], bytes: &[u8]) -> Answer
    ensures { result ≡ checked net.now held.now (length work.old) bytes.now }
{
    let judged = judge(net, held, held.len().min(work.len()))?;
    bytes_fault(&judged, held, work, bytes).map_err(Refusal::BrokenRule)
}

// The first word at which the record breaks a rule.
fn bytes_fault(judged: &Judged, held: &[u64], work: &mut [u64], bytes: &[u8]) -> Kept
    requires working { judged.now.entries ≤ length work.old }
    requires holding { judged.now.entries ≤ length held.now }
    ensures { result ≡ bytes_fault (stands judged.now.network.now) (costs_of judged.now.network.now.constant held.now) bytes.now }
{
    let size = bytes.len();
    if size < HEADER_BYTES || size % WORD_BYTES != 0 {
        return Err(0);
    }
    header_fault(bytes, size / WORD_BYTES, judged.network)?;
    plan_fault(judged, held, bytes)?;
    tree_fault(judged, held, work, bytes)
}

// The values and the price of the plan, where there is one.
fn plan_fault(judged: &Judged, held: &[u64], bytes: &[u8]) -> Kept
    requires holding { judged.now.entries ≤ length held.now }
    requires words { (header_words * word_bytes ≤ length bytes.now) × ((header_words + count_of judged.now.network.now.vars (word_at bytes.now)) * word_bytes ≤ length bytes.now) }
    ensures { result ≡ fault_in (cond (eqb (word_at bytes.now 2) 0) (plan_rules (stands judged.now.network.now) (costs_of judged.now.network.now.constant held.now) (word_at bytes.now)) []) no_fault }
{
    if word_at(bytes, 2) != 0 {
        return Ok(());
    }
    values_fault(bytes, judged.network)?;
    let choice = plan_told(bytes, judged.network.vars);
    if price_of(judged, &choice, held).price != word_at(bytes, 3) {
        return Err(3);
    }
    Ok(())
}

// The steps, from the held costs on.
fn tree_fault(judged: &Judged, held: &[u64], work: &mut [u64], bytes: &[u8]) -> Kept
    requires working { judged.now.entries ≤ length work.old }
    requires holding { judged.now.entries ≤ length held.now }
    requires words { (header_words + count_of judged.now.network.now.vars (word_at bytes.now) + step_words * word_at bytes.now 7) * word_bytes ≤ length bytes.now }
    ensures { result ≡ steps_fault (claims (stands judged.now.network.now) (costs_of judged.now.network.now.constant held.now) (word_at bytes.now)) (step_at (word_at bytes.now)) (word_at bytes.now 7) (header_words + count_of judged.now.network.now.vars (word_at bytes.now)) (root (stands judged.now.network.now) ∷ []) none }
{
    copy_in(work, held, judged.entries);
    let firsts = judged.firsts();
    let claimed = Claimed {
        judged,
        firsts: &firsts,
        held,
        cost: word_at(bytes, 3),
    };
    let from = HEADER_WORDS + values_of(bytes, judged.network.vars);
    // `usize` has no `From<u64>`
    steps_fault(work, claimed, bytes, from, word_at(bytes, 7) as usize)
}
