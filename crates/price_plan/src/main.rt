// Prices a plan in a network, which stands in a file that an argument names; the plan's values are the arguments after it. Prints the price and the
// part at which the plan broke, or the refusal.
#![tactic(auto)]

ghost use Rattle.std.specs.Prelude.{◌≡◌, ◌≤◌, ◌<◌, ◌++◌};
ghost use Rattle.lines.specs.Room.{head_most, lines_most};
ghost use Rattle.lines.specs.Lines.{written};
ghost use Rattle.price_plan.specs.PriceLine.{break_words, price_line};

use console::{ARGUMENT, argument_count, hand_over, read_in_argument, say, say_number};
use costs::limits::{ENTRIES, VARS};
use costs::plans::Plan;
use lines::Lines;
use lines::refusals::refusal;
use prices::breaks::Break;
use prices::prices::Priced;
use reader::limits::TEXT;
use std::env::Env;

// One byte more than a text may have: a text that fills this is refused for its length.
const INPUT: usize = TEXT + 1;

// The argument that names the network.
const NETWORK: usize = 1;

// The argument that is the plan's first value.
const FIRST: usize = 2;

fn main(rt: HostRuntime) {
    let arguments = argument_count(&rt);
    if arguments < FIRST {
        say(&rt.stderr(), b"usage: price_plan NETWORK VALUE ..\n");
        return;
    }
    let mut text = [0; INPUT];
    read_and_price(&rt, &mut text, arguments);
}

fn read_and_price(rt: &HostRuntime, text: &mut [u8], arguments: usize)
    requires { 2 ≤ arguments }
{
    let came = read_in_argument(rt, NETWORK, text);
    if came.failed.is_some() {
        return;
    }
    if let Some(choice) = read_values(rt, arguments) {
        let len = arguments - FIRST;
        price(rt, &text[..came.many], Plan { choice, len });
    }
}

// Those that a plan has no room for are looked at too, though it is refused for their count alone.
fn read_values(rt: &HostRuntime, arguments: usize) -> Option<[u8; VARS]> {
    let mut choice = [0; VARS];
    for argument in FIRST..arguments {
        let value = value_in_argument(rt, argument)?;
        let v = argument - FIRST;
        if v < VARS {
            choice[v] = value;
        }
    }
    Some(choice)
}

// Why there is none is told on standard error.
fn value_in_argument(rt: &HostRuntime, argument: usize) -> Option<u8> {
    let mut word = [0; ARGUMENT];
    let Ok(many) = rt.arg(argument, &mut word) else {
        say_of_argument(rt, argument, b" is too long\n");
        return None;
    };
    let value = value_of(&word[..many]);
    if value.is_none() {
        say_of_argument(rt, argument, b" is not a number\n");
    }
    value
}

fn say_of_argument(rt: &HostRuntime, argument: usize, what: &[u8]) {
    let errors = rt.stderr();
    say(&errors, b"price_plan: argument");
    say_number(&errors, argument as u64);
    say(&errors, what);
}

// Decimal digits, as many as there are. A choice is one byte: 255 stands for every value above it. No size is above 16, so both are out of range and
// refused 9 at the same variable.
fn value_of(digits: &[u8]) -> Option<u8> {
    if digits.is_empty() {
        return None;
    }
    let mut value: u8 = 0;
    for digit in digits {
        if !digit.is_ascii_digit() {
            return None;
        }
        value = value.saturating_mul(10).saturating_add(*digit - b'0');
    }
    Some(value)
}

fn price(rt: &HostRuntime, text: &[u8], plan: Plan) {
    let mut held = [0; ENTRIES];
    let read = reader::reading::read(text, &mut held);
    if read.answer.is_err() {
        tell(rt, refusal(read.answer));
        return;
    }
    let net = read.network;
    tell(rt, line(prices::price(net, &held, plan)));
}

// `price 10 at function 1`
fn line(priced: Priced) -> Lines
    ensures { written result ≡ price_line priced }
{
    if priced.answer.is_err() {
        return refusal(priced.answer);
    }
    let price = Lines::new().with_word(b"price ").with_number(priced.price);
    with_break(price, priced.broke).with_word(b"\n")
}

fn with_break(lines: Lines, broke: Break) -> Lines
    requires { lines.len ≤ head_most }
    ensures says { written result ≡ written lines ++ break_words broke }
    ensures len { result.len < lines_most }
{
    match broke {
        Break::Nowhere => lines,
        Break::Constant => lines.with_word(b" at constant"),
        Break::Unary(v) => lines.with_word(b" at unary ").with_number(v as u64),
        Break::Function(f) => lines.with_word(b" at function ").with_number(f as u64),
    }
}

fn tell(rt: &HostRuntime, lines: Lines) {
    hand_over(rt, lines.as_bytes());
}
