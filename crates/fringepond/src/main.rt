// Reads a network from standard input and prints the verdict on it: the cheapest plan, "none", or a refusal.
#![tactic(auto)]

use console::{argument_count, hand_over, read_in, say, tell_failure};
use reader::limits::TEXT;
use verdict::verdict;

// One byte more than a text may have: a text that fills this is refused for its length.
const INPUT: usize = TEXT + 1;

fn main(rt: HostRuntime) {
    if argument_count(&rt) > 1 {
        say(&rt.stderr(), b"usage: fringepond < NETWORK\n");
        return;
    }
    let mut text = [0u8; INPUT];
    read_and_tell(&rt, &mut text);
}

fn read_and_tell(rt: &HostRuntime, text: &mut [u8]) {
    let came = read_in(&mut rt.stdin(), text);
    if let Some(error) = came.failed {
        tell_failure(&rt.stderr(), b"standard input", error);
        return;
    }
    hand_over(rt, verdict(&text[..came.many]).as_bytes());
}
