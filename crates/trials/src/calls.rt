// Each call on a frame's text, and the line that tells what it handed back and what stands in the lent buffers.
use console::{say, say_number, say_place, say_refusal, say_values};
use costs::limits::{ENTRIES, ROW, VARS};
use costs::networks::Network;
use costs::plans::Plan;
use prices::breaks::Break;
use shifts::moves::Move;
use shifts::nodes::Node;
use std::io::Stdout;
use trial_frames::headers::{Call, NetworkCall, RECORD, ROOM};
use trial_frames::lending::{Lend, Lengths, UNWRITTEN, lengths_lent};
use trial_frames::lines::{say_done, say_runs};

// A record's buffer before the search.
const UNWRITTEN_BYTE: u8 = 170;

// A `lend` has no line of its own.
pub fn answer(out: &Stdout, call: Call, text: &[u8], record: &[u8], lent: Option<Lend>) {
    match call {
        Call::Read { length } => call_read(out, text, length),
        Call::Of(call) => answer_of_network(out, call, text, record, lent),
        Call::Lend(_) => {}
    }
    say(out, b"\n");
}

fn call_read(out: &Stdout, text: &[u8], length: usize) {
    let mut table = [UNWRITTEN; ROOM];
    read_into(out, text, &mut table, length);
}

// Lends as much of the table as was asked for.
fn read_into(out: &Stdout, text: &[u8], whole: &mut [u64], length: usize) {
    if whole.len() < length {
        return;
    }
    let table = &mut whole[..length];
    let read = reader::reading::read(text, table);
    let net = read.network;
    if read.answer.is_err() {
        say_refusal(out, read.answer);
    } else {
        say(out, b"done");
        say_number(out, net.top);
        say_number(out, net.constant);
        say_sizes(out, &net);
        say_scopes(out, &net);
    }
    say(out, b" table");
    say_runs(out, table);
}

// N and the size of each variable.
fn say_sizes(out: &Stdout, net: &Network) {
    let vars = net.vars;
    say_number(out, vars as u64);
    for size in &net.sizes[..vars.min(VARS)] {
        say_number(out, u64::from(*size));
    }
}

// F, and for each function its arity and variables.
fn say_scopes(out: &Stdout, net: &Network) {
    let functions = net.functions;
    say_number(out, functions as u64);
    for row in net.scopes.chunks(ROW).take(functions) {
        say_scope(out, row);
    }
}

fn say_scope(out: &Stdout, row: &[u8]) {
    let [arity, variables @ ..] = row else {
        return;
    };
    say_number(out, u64::from(*arity));
    for variable in variables.iter().take(usize::from(*arity)) {
        say_number(out, u64::from(*variable));
    }
}

// Every other call asks for a text that can be read.
fn answer_of_network(
    out: &Stdout,
    call: NetworkCall,
    text: &[u8],
    record: &[u8],
    lent: Option<Lend>,
) {
    let mut held = [UNWRITTEN; ROOM];
    let got = reader::reading::read(text, &mut held[..ENTRIES]);
    if got.answer.is_err() {
        say(out, b"unread");
        say_place(out, got.answer);
        return;
    }
    let net = got.network;
    let mut work = [UNWRITTEN; ROOM];
    make_lent(out, call, net, &mut held, &mut work, record, lent);
}

// "after reading one number is replaced by value"; the worked table that is shown "is made first". What a frame lends is handed on part by part, here and below, since the tables are
// lent for writing.
fn make_lent(
    out: &Stdout,
    call: NetworkCall,
    read: Network,
    held: &mut [u64; ROOM],
    work: &mut [u64; ROOM],
    record: &[u8],
    lent: Option<Lend>,
) {
    let lengths = lengths_lent(read, held, lent);
    if let NetworkCall::Show { .. } = call {
        pass_free(read, held, work);
    }
    let mut net = read;
    if let Some(replaced) = lent.and_then(|lend| lend.replaced) {
        if let NetworkCall::Show { .. } = call {
            replaced.in_worked(work);
        }
        net = replaced.in_network(read);
        replaced.in_held(held);
    }
    cut(out, call, net, held, work, lengths, record);
}

// "the table after a pass at the free node"
fn pass_free(net: Network, held: &[u64; ROOM], work: &mut [u64; ROOM]) {
    let free = Node { fixed: [0; VARS] };
    passes::pass(net, held, work, free);
}

// Lends as much of each table as was asked for, which a header that fits keeps within its room.
fn cut(
    out: &Stdout,
    call: NetworkCall,
    net: Network,
    held: &mut [u64],
    work: &mut [u64],
    lengths: Lengths,
    record: &[u8],
) {
    if held.len() < lengths.held || work.len() < lengths.work {
        return;
    }
    make(
        out,
        call,
        net,
        &mut held[..lengths.held],
        &mut work[..lengths.work],
        record,
    );
}

// Makes the call on the tables that are lent.
fn make(
    out: &Stdout,
    call: NetworkCall,
    net: Network,
    held: &mut [u64],
    work: &mut [u64],
    record: &[u8],
) {
    match call {
        NetworkCall::Price(plan) => call_price(out, net, held, plan),
        NetworkCall::Shift { node, one } => call_shift(out, net, held, node, one),
        NetworkCall::Pass(node) => call_pass(out, net, held, work, node),
        NetworkCall::Search {
            budget,
            asked,
            room,
        } => call_search(out, net, held, work, budget, asked, room),
        NetworkCall::Check { .. } => call_check(out, net, held, work, record),
        NetworkCall::Show { which, function } => {
            say(out, b"part");
            say_runs(out, showing::shown(net, held, work, which, function));
        }
    }
}

fn call_price(out: &Stdout, net: Network, held: &[u64], plan: Plan) {
    let priced = prices::price(net, held, plan);
    say_done(out, priced.answer, priced.price);
    if priced.answer.is_ok() {
        say_break(out, priced.broke);
    }
}

fn say_break(out: &Stdout, broke: Break) {
    match broke {
        Break::Nowhere => say(out, b" nowhere"),
        Break::Constant => say(out, b" constant"),
        Break::Unary(v) => {
            say(out, b" unary");
            say_number(out, v as u64);
        }
        Break::Function(f) => {
            say(out, b" function");
            say_number(out, f as u64);
        }
    }
}

fn call_shift(out: &Stdout, net: Network, table: &mut [u64], node: Node, one: Move) {
    let outcome = shifting::shift(net, table, node, one);
    say_done(out, outcome.answer, outcome.constant);
    say(out, b" table");
    say_runs(out, table);
}

fn call_pass(out: &Stdout, net: Network, held: &[u64], work: &mut [u64], node: Node) {
    let outcome = passes::pass(net, held, work, node);
    say_done(out, outcome.answer, outcome.constant);
    say(out, b" work");
    say_runs(out, work);
}

fn call_search(
    out: &Stdout,
    net: Network,
    held: &[u64],
    work: &mut [u64],
    budget: u64,
    asked: bool,
    room: usize,
) {
    let mut buffer = [UNWRITTEN_BYTE; RECORD];
    search_into(out, net, held, work, &mut buffer, room, budget, asked);
}

fn search_into(
    out: &Stdout,
    net: Network,
    held: &[u64],
    work: &mut [u64],
    whole: &mut [u8],
    room: usize,
    budget: u64,
    asked: bool,
) {
    if whole.len() < room {
        return;
    }
    let buffer = &mut whole[..room];
    let found = search::search(net, held, work, buffer, asked, budget);
    if found.answer.is_err() {
        say_refusal(out, found.answer);
    } else {
        if found.cost < net.top {
            say(out, b"cost");
            say_number(out, found.cost);
            say(out, b" plan");
            say_values(out, found.plan);
        } else {
            say(out, b"none");
            say_number(out, found.cost);
        }
        say(out, b" nodes");
        say_number(out, found.nodes);
    }
    say(out, b" work");
    say_runs(out, work);
    say(out, b" record");
    say_runs(out, buffer);
}

fn call_check(out: &Stdout, net: Network, held: &[u64], work: &mut [u64], record: &[u8]) {
    let answer = desk::check(net, held, work, record);
    match answer {
        Ok(()) => say(out, b"accepted"),
        Err(_) => say_refusal(out, answer),
    }
    say(out, b" work");
    say_runs(out, work);
}
