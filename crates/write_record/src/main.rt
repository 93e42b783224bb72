// Reads a network from standard input, searches it and writes the decision record to standard output. Whatever else there is to say goes to standard
// error, so that what a refusal leaves on standard output is no record.
#![tactic(auto)]

use answers::Answer;
use console::{argument_count, hand_over, read_in, say, say_refusal, tell_failure};
use costs::limits::{ENTRIES, VARS};
use costs::networks::Network;
use reader::limits::TEXT;
use records::layout::{HEADER_BYTES, HEADER_WORDS, STEP_WORDS, WORD_BYTES};
use records::words::word_at;

// That of the program `fringepond`.
const BUDGET: u64 = 1_000_000;

// One byte more than a text may have: a text that fills this is refused for its length.
const INPUT: usize = TEXT + 1;

// Room for a record; a longer one is refused 12.
const ROOM: usize = 4_194_304;

fn main(rt: HostRuntime) {
    if argument_count(&rt) > 1 {
        say(&rt.stderr(), b"usage: write_record < NETWORK > RECORD\n");
        return;
    }
    let mut text = [0u8; INPUT];
    read_and_write(&rt, &mut text);
}

fn read_and_write(rt: &HostRuntime, text: &mut [u8]) {
    let came = read_in(&mut rt.stdin(), text);
    if let Some(error) = came.failed {
        tell_failure(&rt.stderr(), b"standard input", error);
        return;
    }
    write_from(rt, &text[..came.many]);
}

fn write_from(rt: &HostRuntime, text: &[u8]) {
    let mut held = [0u64; ENTRIES];
    let read = reader::reading::read(text, &mut held);
    if read.answer.is_err() {
        refuse(rt, read.answer);
        return;
    }
    let net = read.network;
    let mut record = [0u8; ROOM];
    write_of(rt, net, &held, &mut record);
}

// Lent by its type an array this long has a known length, and the prover need not count it.
fn write_of(rt: &HostRuntime, net: Network, held: &[u64; ENTRIES], record: &mut [u8; ROOM]) {
    write_in(rt, net, held, record);
}

fn write_in(rt: &HostRuntime, net: Network, held: &[u64], record: &mut [u8]) {
    let mut work = [0u64; ENTRIES];
    let found = search::search(net, held, &mut work, record, true, BUDGET);
    if found.answer.is_err() {
        refuse(rt, found.answer);
        return;
    }
    let many = told_length(record);
    if many <= record.len() {
        hand_over(rt, &record[..many]);
    }
}

fn refuse(rt: &HostRuntime, answer: Answer) {
    let errors = rt.stderr();
    say_refusal(&errors, answer);
    say(&errors, b"\n");
}

// The bytes of the record that stands at the front of the buffer: its header, its values and its steps.
fn told_length(record: &[u8]) -> usize {
    if record.len() < HEADER_BYTES {
        return 0;
    }
    let values = word_at(record, 5);
    let steps = word_at(record, 7);
    if values > VARS as u64 || steps > ROOM as u64 {
        return 0;
    }
    (HEADER_WORDS as u64 + values + steps * STEP_WORDS as u64) as usize * WORD_BYTES
}
