// Checks a record against a network, each in a file that an argument names, and prints `accepted` or the refusal.
#![tactic(auto)]

use answers::Answer;
use console::{argument_count, hand_over, read_in_argument, say};
use costs::limits::ENTRIES;
use lines::refusals::refusal;
use reader::limits::TEXT;

// One byte more than a text may have: a text that fills this is refused for its length.
const INPUT: usize = TEXT + 1;

// One byte more than this program checks.
const ROOM: usize = 4_194_305;

fn main(rt: HostRuntime) {
    if argument_count(&rt) != 3 {
        say(&rt.stderr(), b"usage: check_record NETWORK RECORD\n");
        return;
    }
    let mut text = [0u8; INPUT];
    let mut record = [0u8; ROOM];
    check_in(&rt, &mut text, &mut record);
}

// Lent by its type an array this long has a known length, and the prover need not count it.
fn check_in(rt: &HostRuntime, text: &mut [u8; INPUT], record: &mut [u8; ROOM]) {
    read_and_check(rt, text, record);
}

fn read_and_check(rt: &HostRuntime, text: &mut [u8], record: &mut [u8]) {
    let text_came = read_in_argument(rt, 1, text);
    if text_came.failed.is_some() {
        return;
    }
    let record_came = read_in_argument(rt, 2, record);
    if record_came.failed.is_some() {
        return;
    }
    if record_came.many == record.len() {
        say(
            &rt.stderr(),
            b"a record of more than 4194304 bytes is not checked here\n",
        );
        return;
    }
    check(rt, &text[..text_came.many], &record[..record_came.many]);
}

fn check(rt: &HostRuntime, text: &[u8], record: &[u8]) {
    let mut held = [0u64; ENTRIES];
    let read = reader::reading::read(text, &mut held);
    if read.answer.is_err() {
        tell(rt, read.answer);
        return;
    }
    let net = read.network;
    let mut work = [0u64; ENTRIES];
    tell(rt, desk::check(net, &held, &mut work, record));
}

fn tell(rt: &HostRuntime, answer: Answer) {
    match answer {
        Ok(()) => hand_over(rt, b"accepted\n"),
        Err(_) => hand_over(rt, refusal(answer).as_bytes()),
    }
}
