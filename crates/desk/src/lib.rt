// The record desk: whether a decision record keeps the rules. It stands on the price and shift rules alone. This file is the room's door.
#![tactic(auto)]

mod checking;
mod headers;
mod values;

ghost use Rattle.std.specs.Prelude.{◌≡◌, length, replicate};
ghost use Rattle.desk.specs.Checking.{checked};

use crate::checking::answered;
use answers::Answer;
use costs::networks::Network;
use tables::clear;

// The check of a decision record against the held costs: refusals 8, 7 and 13, in that order. The working table is zero afterwards, always.
pub fn check(net: Network, held: &[u64], work: &mut [u64], bytes: &[u8]) -> Answer
    ensures { (result ≡ checked net held.now (length work.old) bytes.now) × (work.new ≡ replicate (length work.old) 0) }
{
    let answer = answered(&net, held, work, bytes);
    clear(work);
    answer
}
