// The pieces of a line that one call's lines share with another's. A space stands before each.
use answers::Answer;
use console::{say, say_number, say_refusal};
use std::io::Stdout;

// `done 4`, or the refusal
pub fn say_done(out: &Stdout, answer: Answer, n: u64) {
    match answer {
        Ok(()) => {
            say(out, b"done");
            say_number(out, n);
        }
        Err(_) => say_refusal(out, answer),
    }
}

// `0*12 5*1 77*2`
pub fn say_runs<T: Copy + PartialEq + Into<u64>>(out: &Stdout, items: &[T]) {
    for run in items.chunk_by(|x, y| x == y) {
        if let [first, ..] = run {
            say_number(out, (*first).into());
            let _ = print!(out; "*{}", run.len());
        }
    }
}
