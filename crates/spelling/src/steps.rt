// The steps of a record, one after the other.
ghost use Rattle.std.specs.Prelude.{◌≡◌, false, not, ◌&&◌, [], ◌∷◌, ℕ, ◌+◌, ◌*◌, ◌≤◌, ◌<◌, leb, ltb, length, get_or, is_some, IfSome};
ghost use Rattle.std.proofs.Math.Option.{none};
ghost use Rattle.costs.specs.Limits.{vars_most};
ghost use Rattle.costs.specs.Networks.{sizes_of, stands};
ghost use Rattle.shifts.specs.Nodes.{live_in};
ghost use Rattle.records.specs.Words.{word_bytes, word_at};
ghost use Rattle.records.specs.Steps.{step_words, step_at};
ghost use Rattle.records.specs.Trees.{root, children};
ghost use Rattle.spelling.specs.Spelling.{NodeCosts, steps_fault};
ghost use Rattle.spelling.specs.Ties.Standing.{is_set, said, node_at, pending_at, Upright, LeadsTo};
ghost use Rattle.spelling.specs.Ties.Stepping.{claim_in, Follows, Took, Shifted};

use crate::claims::Claimed;
use crate::faults::Kept;
use crate::trees::Place;
use costs::networks::Network;
use records::layout::STEP_WORDS;
use records::steps::Step;
use records::words::word_at;
use shifting::moves::try_shift;
use shifts::moves::Move;
use shifts::sites::Site;
use tables::copy_in;

// The first word at which the steps fail. The working table holds the held costs.
pub fn steps_fault(
    work: &mut [u64],
    claimed: Claimed,
    bytes: &[u8],
    from: usize,
    steps: usize,
) -> Kept
    requires whole { claimed.judged.now.entries ≤ length work.old }
    requires by_index { (j : ℕ) → j < claimed.judged.now.entries → get_or work.old j 0 ≡ get_or claimed.held.now j 0 }
    requires word_bytes_in_bounds { (from + step_words * steps) * word_bytes ≤ length bytes.now }
    ensures { result ≡ steps_fault (claim_in claimed.entry) (step_at (word_at bytes.now)) steps from (root (stands claimed.entry.judged.now.network.now) ∷ []) none }
{
    let mut place = Place::root(claimed.judged.network.constant);
    for step in 0..steps {
        let w = from + STEP_WORDS * step;
        if place.over {
            return Err(w);
        }
        let one = step_at(bytes, w).ok_or(w)?;
        place = take_step(work, claimed, place, one).ok_or(w)?;
    }
    if place.over {
        Ok(())
    } else {
        Err(from + STEP_WORDS * steps)
    }
}

// The step whose first word is word w.
fn step_at(bytes: &[u8], w: usize) -> Option<Step>
    requires { (w + step_words) * word_bytes ≤ length bytes.now }
    ensures { result ≡ step_at (word_at bytes.now) w }
{
    Step::spelt([
        word_at(bytes, w),
        word_at(bytes, w + 1),
        word_at(bytes, w + 2),
        word_at(bytes, w + 3),
        word_at(bytes, w + 4),
    ])
}

// The place after a step, where the rules allow it.
fn take_step(work: &mut [u64], claimed: Claimed, place: Place, step: Step) -> Option<Place>
    requires whole { claimed.judged.now.entries ≤ length work.old }
    requires upright { Upright claimed.judged.now.network.now.vars (sizes_of claimed.judged.now.network.now.sizes) place × (place.over ≡ false) }
    ensures { (costs : NodeCosts) → Follows (claim_in claimed.entry) costs place work.old → Took (claim_in claimed.entry) costs place step result work.new }
{
    match step {
        Step::Branch(i) => branch_step(place, claimed.judged.network, i),
        Step::Shift(one) => shift_step(work, claimed, place, one),
        Step::Close => close_step(work, claimed, place),
    }
}

fn branch_step(place: Place, net: &Network, i: usize) -> Option<Place>
    requires { Upright net.now.vars (sizes_of net.now.sizes) place × (net.now.vars ≤ vars_most) × ((v : ℕ) → v < net.now.vars → 0 < get_or net.now.sizes v 0) }
    ensures allowed { is_some result ≡ (ltb i net.now.vars && (not (is_set (said place i)) && not place.begun)) }
    ensures leads { IfSome result (LeadsTo net.now.vars (sizes_of net.now.sizes) (children (node_at (sizes_of net.now.sizes) place) i (get_or net.now.sizes i 0) (pending_at (sizes_of net.now.sizes) place)) false place.constant) }
{
    if net.vars <= i || place.fixed[i] != 0 || place.begun {
        return None;
    }
    Some(place.branched(net, i))
}

fn shift_step(work: &mut [u64], claimed: Claimed, place: Place, one: Move) -> Option<Place>
    requires whole { claimed.judged.now.entries ≤ length work.old }
    requires upright { Upright claimed.judged.now.network.now.vars (sizes_of claimed.judged.now.network.now.sizes) place }
    ensures { Shifted (stands claimed.entry.judged.now.network.now) (live_in claimed.entry.judged.now.network.now.sizes place.fixed) place one work.old result work.new }
{
    let site = Site {
        judged: claimed.judged,
        firsts: claimed.firsts,
        node: &place.fixed,
    };
    let constant = try_shift(work, site, place.constant, one).ok()?;
    Some(Place {
        begun: true,
        constant,
        ..place
    })
}

fn close_step(work: &mut [u64], claimed: Claimed, place: Place) -> Option<Place>
    requires whole { claimed.judged.now.entries ≤ length work.old }
    requires upright { Upright claimed.judged.now.network.now.vars (sizes_of claimed.judged.now.network.now.sizes) place }
    ensures allowed { is_some result ≡ leb claimed.entry.cost place.constant }
    ensures leads { IfSome result (λ next. LeadsTo claimed.entry.judged.now.network.now.vars (sizes_of claimed.entry.judged.now.network.now.sizes) (pending_at (sizes_of claimed.entry.judged.now.network.now.sizes) place) false claimed.entry.judged.now.network.now.constant next × ((j : ℕ) → j < claimed.entry.judged.now.entries → get_or work.new j 0 ≡ get_or claimed.entry.held.now j 0)) }
{
    if place.constant < claimed.cost {
        return None;
    }
    copy_in(work, claimed.held, claimed.judged.entries);
    Some(place.turned_back(claimed.judged.network))
}
