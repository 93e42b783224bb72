// The search on networks of three shapes, five of each, drawn by a fixed recurrence with costs below 50. A line for each: the cost and the nodes. stdout is what
// hosts/search_speed/ordinary.rs prints, the ordinary search on the same networks that the time of this one is measured against.
#![tactic(auto)]

ghost use Rattle.std.specs.Prelude.{◌≤◌, ◌<◌};
ghost use Rattle.costs.specs.Limits.{entries_most, functions_most};

use costs::limits::{ENTRIES, FUNCTIONS, ROW, ROWS, VARS};
use costs::networks::Network;
use std::io::Stdout;

// Nobody compares two.
#[derive(Clone, Copy)]
struct Shape {
    // N, and the size of each domain
    vars: usize,
    size: u8,
    // the functions in all; those of arity 2 come first, those of arity 3 after them
    functions: usize,
    binary: usize,
    // the entries of all variables, of a function of arity 2 and of one of arity 3
    unary: usize,
    pairs: usize,
    triples: usize,
    // how far the next variable of a scope is from the last, at most
    reach: u64,
}

const MIDDLING: Shape = Shape {
    vars: 12,
    size: 4,
    functions: 40,
    binary: 30,
    unary: 48,
    pairs: 16,
    triples: 64,
    reach: 5,
};

const WIDE: Shape = Shape {
    vars: 6,
    size: 16,
    functions: 15,
    binary: 15,
    unary: 96,
    pairs: 256,
    triples: 4096,
    reach: 2,
};

const NARROW: Shape = Shape {
    vars: 20,
    size: 2,
    functions: 130,
    binary: 100,
    unary: 40,
    pairs: 4,
    triples: 8,
    reach: 5,
};

fn main(rt: HostRuntime) {
    let out = rt.stdout();
    for shape in [MIDDLING, WIDE, NARROW] {
        for seed in 1..=5 {
            search_drawn(&out, shape, seed);
        }
    }
}

fn search_drawn(out: &Stdout, shape: Shape, seed: u64) {
    let mut scopes = [0; ROWS];
    let after = draw_scopes(&mut scopes, shape, seed);
    let net = Network {
        top: 1_000_000_000,
        constant: 0,
        vars: shape.vars,
        sizes: [shape.size; VARS],
        functions: shape.functions,
        scopes,
        starts: stretches(shape),
    };
    let mut held = [0u64; ENTRIES];
    draw_costs(&mut held, after);
    let mut work = [0u64; ENTRIES];
    let mut record = [0u8; 64];
    let found = search::search(net, &held, &mut work, &mut record, false, 1_000_000);
    tell(out, found.cost, found.nodes);
}

fn next(seed: u64) -> u64 {
    (seed % 2_147_483_648 * 1_103_515_245 + 12_345) % 2_147_483_648
}

// The higher digits of a draw, which repeat less soon.
fn high(seed: u64) -> u64 {
    seed / 65_536
}

// At most 64 numbers from 0 on.
fn below(n: u64, many: u64) -> u64
    ensures { result < 64 }
{
    if many < 1 {
        return 0;
    }
    n % many % 64
}

fn draw_scopes(scopes: &mut [u8; ROWS], shape: Shape, seed: u64) -> u64 {
    let mut at = seed;
    for f in 0..shape.functions.min(FUNCTIONS) {
        at = draw_scope(scopes, shape, f, at);
    }
    at
}

fn draw_scope(scopes: &mut [u8; ROWS], shape: Shape, f: usize, seed: u64) -> u64
    requires { f < functions_most }
{
    let vars = shape.vars as u64;
    let first = next(seed);
    let second = next(first);
    let third = next(second);
    let a = below(high(first), vars);
    let b = below(a + 1 + below(high(second), shape.reach), vars);
    let c = below(b + 1 + below(high(third), shape.reach), vars);
    scopes[f * ROW] = if f < shape.binary { 2 } else { 3 };
    scopes[f * ROW + 1] = a as u8;
    scopes[f * ROW + 2] = b as u8;
    scopes[f * ROW + 3] = c as u8;
    third
}

fn stretches(shape: Shape) -> [usize; FUNCTIONS] {
    let mut starts = [0; FUNCTIONS];
    let mut at = shape.unary;
    for f in 0..FUNCTIONS {
        if ENTRIES < at {
            break;
        }
        starts[f] = at;
        at += tuples(shape, f);
    }
    starts
}

fn tuples(shape: Shape, f: usize) -> usize
    ensures { result ≤ entries_most }
{
    let many = if f < shape.binary {
        shape.pairs
    } else {
        shape.triples
    };
    many.min(ENTRIES)
}

fn draw_costs(held: &mut [u64], seed: u64) {
    let mut at = seed;
    for cost in held.iter_mut() {
        at = next(at);
        *cost = high(at) % 50;
    }
}

fn tell(out: &Stdout, cost: u64, nodes: u64) {
    let _ = println!(out; "{cost} {nodes}");
}
