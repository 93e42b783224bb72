// What the programs share: their arguments, inputs read whole, and the lines that they write, piece by piece.
#![tactic(auto)]

ghost use Rattle.std.specs.Prelude.{◌≡◌, ◌<◌, length, take, None};
ghost use Rattle.std.specs.Io.KnownBytes.{Consumes, IsAtEnd};
ghost use Rattle.io.specs.Counts.{IsPrefixLen};

use answers::Answer;
use costs::limits::VARS;
use costs::plans::Plan;
use std::env::{Env, FillError};
use std::io::{Error, ErrorKind, Read, Write};
use std::{fs, str};

// An argument longer than this is not read. No path that can be opened is longer.
pub const ARGUMENT: usize = 4_096;

// Linux's numbers of two of its errors, whose texts tell why an argument is not read.
const TOO_LONG: i32 = 36;

const MISSING: i32 = 22;

// Room for what an error says.
const REASON: usize = 256;

// How many bytes came before the input ended or the buffer was full; a read that failed ends it too, and is told apart. No Result: what came before an
// error still counts.
#[derive(Clone, Copy)]
pub struct Came {
    pub many: usize,
    pub failed: Option<Error>,
}

// Reads on until the buffer is full or the input ends, however few bytes a read delivers. Of a reader whose bytes are known, those that came are the
// first ones that it had left, in their order.
pub fn read_in<R: Read>(from: &mut R, buffer: &mut [u8]) -> Came
    ensures counted { IsPrefixLen result.many buffer.new }
    ensures bytes { Consumes (R.remaining from.old) (R.remaining from.new) (take result.many buffer.new) }
    ensures whole { result.failed ≡ None → result.many < length buffer.new → IsAtEnd (R.remaining from.new) }
{
    let mut many: usize = 0;
    // No `for`: what is counted is the bytes that each read delivers.
    while many < buffer.len() {
        match from.read(&mut buffer[many..]) {
            Err(error) => {
                return Came {
                    many,
                    failed: Some(error),
                };
            }
            Ok(0) => break,
            Ok(more) => many += more,
        }
    }
    Came { many, failed: None }
}

// How many arguments the program was started with, its own name among them.
pub fn argument_count(env: &impl Env) -> usize {
    for i in 0..usize::MAX {
        // One that is not there is told apart from one that has no room here.
        if let Err(FillError::NotPresent) = env.arg(i, &mut []) {
            return i;
        }
    }
    usize::MAX
}

// The bytes of the file that an argument names. What cannot be read is told on standard error.
pub fn read_in_argument(rt: &HostRuntime, argument: usize, buffer: &mut [u8]) -> Came
    ensures { IsPrefixLen result.many buffer.new }
{
    let mut path = [0u8; ARGUMENT];
    let named = match rt.arg(argument, &mut path) {
        Ok(named) => named,
        Err(why) => {
            let error = unread_argument(why);
            tell_failure(&rt.stderr(), b"an argument cannot be read", error);
            return nothing_came(error);
        }
    };
    let came = read_in_path(rt, &path[..named], buffer);
    if let Some(error) = came.failed {
        tell_failure(&rt.stderr(), &path[..named], error);
    }
    came
}

fn read_in_path(rt: &HostRuntime, path: &[u8], buffer: &mut [u8]) -> Came
    ensures { IsPrefixLen result.many buffer.new }
{
    let Ok(name) = str::from_utf8(path) else {
        // The system takes any bytes for a name, and std only text.
        return nothing_came(Error::new(
            ErrorKind::InvalidFilename,
            "a name that is not UTF-8 cannot be opened",
        ));
    };
    match fs::open(rt, name) {
        Ok(mut file) => read_in(&mut file, buffer),
        Err(error) => nothing_came(error),
    }
}

fn nothing_came(error: Error) -> Came
    ensures { result.many ≡ 0 }
{
    Came {
        many: 0,
        failed: Some(error),
    }
}

fn unread_argument(why: FillError) -> Error {
    match why {
        FillError::TooLong => Error::from_raw_os_error(TOO_LONG),
        FillError::NotPresent => Error::from_raw_os_error(MISSING),
    }
}

// What failed and why: `standard output: No space left on device`.
pub fn tell_failure(to: &impl Print, what: &[u8], error: Error) {
    let mut room = [0u8; REASON];
    let mut rest = &mut room[..];
    let _ = write!(rest, "{error}");
    let many = REASON.saturating_sub(rest.len());
    say(to, what);
    say(to, b": ");
    say(to, without_number(&room[..many]));
    say(to, b"\n");
}

// Behind its text std writes a system error's number, ` (os error 28)`, which the programs leave out.
fn without_number(text: &[u8]) -> &[u8] {
    match text.iter().rposition(|byte| *byte == b'(') {
        Some(at) if at > 0 => &text[..at - 1],
        _ => text,
    }
}

// What cannot be written here is lost, and nobody is told.
pub fn say(to: &impl Print, words: &[u8]) {
    let _ = to.write_all(words);
}

// What a program was run for, to standard output. Where it is lost, that is told on standard error.
pub fn hand_over(rt: &HostRuntime, res: &[u8]) {
    if let Err(error) = rt.write_all(res) {
        tell_failure(&rt.stderr(), b"standard output", error);
    }
}

// A number, a space before it.
pub fn say_number(to: &impl Print, n: u64) {
    let _ = print!(to; " {n}");
}

// `refused 2 at 0`
pub fn say_refusal(to: &impl Print, answer: Answer) {
    say(to, b"refused");
    say_place(to, answer);
}

// The number of a refusal and its place.
pub fn say_place(to: &impl Print, answer: Answer) {
    say_number(to, answers::number(answer));
    say(to, b" at");
    say_number(to, answers::place(answer) as u64);
}

// The plan's values, a space before each.
pub fn say_values(to: &impl Print, plan: Plan) {
    for choice in &plan.choice[..plan.len.min(VARS)] {
        say_number(to, u64::from(*choice));
    }
}
