// The header line of a frame: the call, then numbers.
ghost use Rattle.std.specs.Prelude.{◌≤◌, ◌<◌, IfOk, SomeIff};

use crate::lending::{Lend, lend_of};
use console::read_in;
use costs::limits::VARS;
use costs::plans::Plan;
use shifts::moves::Move;
use shifts::nodes::Node;
use showing::Which;
use std::io::Read;
use std::str;

// A lent table has at most this many entries.
pub const ROOM: usize = 5_000;
// A record's buffer has at most this many bytes.
pub const RECORD: usize = 400_000;
// "header line 1,024 bytes", and its end.
const LINE: usize = 1_025;
// A call has at most so many numbers: those of a shift and of its node.
pub const NUMBERS: usize = 6 + VARS;
// A number has at most this many digits.
const DIGITS: usize = 20;

// Why no frame is answered.
#[derive(Clone, Copy, Debug, PartialEq, Eq)]
pub enum FrameError {
    // the input has ended before it
    Over,
    // it is none, or cut off
    Bad,
}

// What a frame asks for. Nobody compares two, here and of what it holds.
#[derive(Clone, Copy)]
pub enum Call {
    Read { length: usize },
    Lend(Lend),
    Of(NetworkCall),
}

// What is asked of a network.
#[derive(Clone, Copy)]
pub enum NetworkCall {
    Price(Plan),
    Shift {
        node: Node,
        one: Move,
    },
    Pass(Node),
    Search {
        budget: u64,
        asked: bool,
        room: usize,
    },
    // of a record of so many bytes
    Check {
        record: usize,
    },
    Show {
        which: Which,
        function: usize,
    },
}

// The length of the text, and the call. Nobody compares two.
#[derive(Clone, Copy)]
pub struct Header {
    pub text: usize,
    pub call: Call,
}

impl Header {
    // Only a check has a record behind its text.
    pub fn record_length(&self) -> usize {
        match self.call {
            Call::Of(NetworkCall::Check { record }) => record,
            _ => 0,
        }
    }
}

pub fn read_header(from: &mut impl Read) -> Result<Header, FrameError> {
    let mut line = [0; LINE];
    let many = read_line(from, &mut line)?;
    header_of(&line[..many]).ok_or(FrameError::Bad)
}

// How many bytes a line has before its end.
fn read_line(from: &mut impl Read, line: &mut [u8; LINE]) -> Result<usize, FrameError>
    ensures { IfOk result (λ many. many ≤ 1_025) }
{
    for many in 0..LINE {
        let mut one = [0];
        if read_in(from, &mut one).many == 0 {
            return Err(if many == 0 {
                FrameError::Over
            } else {
                FrameError::Bad
            });
        }
        if one[0] == b'\n' {
            return Ok(many);
        }
        line[many] = one[0];
    }
    Err(FrameError::Bad)
}

// Each number behind one space. No heap is used, so the numbers have a fixed room.
fn header_of(line: &[u8]) -> Option<Header> {
    let mut words = line.split(|byte| *byte == b' ');
    let name = words.next()?;
    let mut room = [0; NUMBERS];
    let mut many = 0;
    for word in words {
        if many == NUMBERS {
            return None;
        }
        room[many] = number_in(word)?;
        many += 1;
    }
    let [text, numbers @ ..] = &room[..many] else {
        return None;
    };
    let call = match name {
        b"read" => read_of(numbers)?,
        b"price" => price_of(numbers)?,
        b"shift" => shift_of(numbers)?,
        b"pass" => Call::Of(NetworkCall::Pass(node_of(numbers)?)),
        b"search" => search_of(numbers)?,
        b"check" => check_of(numbers)?,
        b"show" => show_of(numbers)?,
        b"lend" if *text == 0 => Call::Lend(lend_of(numbers)?),
        _ => return None,
    };
    Some(Header {
        text: *text as usize,
        call,
    })
}

// Digits alone: std would take a sign before them.
fn number_in(digits: &[u8]) -> Option<u64> {
    if digits.len() > DIGITS || !digits.iter().all(|digit| digit.is_ascii_digit()) {
        return None;
    }
    str::from_utf8(digits).ok()?.parse().ok()
}

// A number below `end`.
pub(crate) fn below(n: u64, end: usize) -> Option<usize>
    ensures { SomeIff result (n < end) n }
{
    if n < end as u64 {
        Some(n as usize)
    } else {
        None
    }
}

fn read_of(numbers: &[u64]) -> Option<Call> {
    let [length] = numbers else {
        return None;
    };
    let length = below(*length, ROOM + 1)?;
    Some(Call::Read { length })
}

fn price_of(numbers: &[u64]) -> Option<Call> {
    let [count, choices @ ..] = numbers else {
        return None;
    };
    let choice = bytes_of(choices)?;
    Some(Call::Of(NetworkCall::Price(Plan {
        choice,
        len: *count as usize,
    })))
}

fn shift_of(numbers: &[u64]) -> Option<Call> {
    let [kind, function, variable, value, amount, fixed @ ..] = numbers else {
        return None;
    };
    let one = move_of(*kind, *function, *variable, *value, *amount)?;
    let node = node_of(fixed)?;
    Some(Call::Of(NetworkCall::Shift { node, one }))
}

// "(f and a are then 0)" in a raise.
fn move_of(kind: u64, function: u64, variable: u64, value: u64, amount: u64) -> Option<Move> {
    let function = usize::from(u16::try_from(function).ok()?);
    let variable = usize::from(u8::try_from(variable).ok()?);
    let value = usize::from(u8::try_from(value).ok()?);
    match kind {
        2 => Some(Move::Project {
            function,
            variable,
            value,
            amount,
        }),
        3 => Some(Move::Extend {
            function,
            variable,
            value,
            amount,
        }),
        4 if function == 0 && value == 0 => Some(Move::Raise { variable, amount }),
        _ => None,
    }
}

fn search_of(numbers: &[u64]) -> Option<Call> {
    let [budget, asked, room] = numbers else {
        return None;
    };
    let asked = match *asked {
        0 => false,
        1 => true,
        _ => return None,
    };
    let room = below(*room, RECORD + 1)?;
    Some(Call::Of(NetworkCall::Search {
        budget: *budget,
        asked,
        room,
    }))
}

fn check_of(numbers: &[u64]) -> Option<Call> {
    let [record] = numbers else {
        return None;
    };
    Some(Call::Of(NetworkCall::Check {
        record: *record as usize,
    }))
}

fn show_of(numbers: &[u64]) -> Option<Call> {
    let [which, function] = numbers else {
        return None;
    };
    let which = match *which {
        0 => Which::Held,
        1 => Which::Worked,
        _ => return None,
    };
    Some(Call::Of(NetworkCall::Show {
        which,
        function: *function as usize,
    }))
}

fn node_of(numbers: &[u64]) -> Option<Node> {
    let fixed = bytes_of(numbers)?;
    Some(Node { fixed })
}

// The choices of a plan or the words of a node; "places not given are 0".
fn bytes_of(numbers: &[u64]) -> Option<[u8; VARS]> {
    if numbers.len() > VARS {
        return None;
    }
    let mut bytes = [0; VARS];
    for (byte, n) in bytes.iter_mut().zip(numbers) {
        *byte = u8::try_from(*n).ok()?;
    }
    Some(bytes)
}
