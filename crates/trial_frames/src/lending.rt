// What a frame is lent: the network as read beside tables of E + 2 entries; or, behind a `lend`, tables of the lengths that it asked for, and one number
// replaced.
ghost use Rattle.std.specs.Prelude.{◌≤◌};
ghost use Rattle.costs.specs.Limits.{entries_most};

use crate::headers::{ROOM, below};
use costs::limits::{ARITY, FUNCTIONS, ROW, VARS};
use costs::networks::Network;
use judging::judge;

// What stands in a table's entry before anybody has written it.
pub const UNWRITTEN: u64 = 77;

// How many entries the held and the working table have. Nobody compares two.
#[derive(Clone, Copy)]
pub struct Lengths {
    pub held: usize,
    pub work: usize,
}

// What a `lend` asks for. Nobody compares two.
#[derive(Clone, Copy)]
pub struct Lend {
    pub lengths: Lengths,
    pub replaced: Option<Replaced>,
}

// The number that is replaced, where it stands, and what takes its place. Nobody compares two.
#[derive(Clone, Copy)]
pub enum Replaced {
    Top(u64),
    Constant(u64),
    Vars(usize),
    Size { variable: usize, size: u8 },
    Functions(usize),
    // a place among the functions' rows
    Row { place: usize, value: u8 },
    Start { function: usize, start: usize },
    // entries of the held and the worked table
    Held { entry: usize, cost: u64 },
    Worked { entry: usize, cost: u64 },
}

// The place is one that the number has, and the value fits it.
pub fn lend_of(numbers: &[u64]) -> Option<Lend> {
    let [held, work, field, place, value] = numbers else {
        return None;
    };
    let held = below(*held, ROOM + 1)?;
    let work = below(*work, ROOM + 1)?;
    let lengths = Lengths { held, work };
    if *field == 0 {
        return Some(Lend {
            lengths,
            replaced: None,
        });
    }
    let replaced = Some(replaced_of(lengths, *field, *place, *value)?);
    Some(Lend { lengths, replaced })
}

fn replaced_of(lengths: Lengths, field: u64, place: u64, value: u64) -> Option<Replaced> {
    match field {
        1 => Some(Replaced::Top(value)),
        2 => Some(Replaced::Constant(value)),
        3 => Some(Replaced::Vars(value as usize)),
        4 => Some(Replaced::Size {
            variable: below(place, VARS)?,
            size: u8::try_from(value).ok()?,
        }),
        5 => Some(Replaced::Functions(value as usize)),
        6 => Some(Replaced::Row {
            place: below(place, FUNCTIONS)? * ROW,
            value: u8::try_from(value).ok()?,
        }),
        7 => {
            let at = below(place, FUNCTIONS * ARITY)?;
            Some(Replaced::Row {
                place: at / ARITY * ROW + at % ARITY + 1,
                value: u8::try_from(value).ok()?,
            })
        }
        8 => Some(Replaced::Start {
            function: below(place, FUNCTIONS)?,
            start: value as usize,
        }),
        9 => Some(Replaced::Held {
            entry: below(place, lengths.held)?,
            cost: value,
        }),
        10 => Some(Replaced::Worked {
            entry: below(place, lengths.work)?,
            cost: value,
        }),
        _ => None,
    }
}

pub fn lengths_lent(net: Network, table: &[u64; ROOM], lent: Option<Lend>) -> Lengths {
    if let Some(lend) = lent {
        return lend.lengths;
    }
    let both = entries_of(&net, table) + 2;
    Lengths {
        held: both,
        work: both,
    }
}

// E
fn entries_of(net: &Network, table: &[u64; ROOM]) -> usize
    ensures { result ≤ entries_most }
{
    match judge(net, table, ROOM) {
        Ok(judged) => judged.entries,
        Err(_) => 0,
    }
}

impl Replaced {
    // The network with the number replaced.
    pub fn in_network(self, network: Network) -> Network {
        let mut net = network;
        match self {
            Replaced::Top(top) => net.top = top,
            Replaced::Constant(constant) => net.constant = constant,
            Replaced::Vars(vars) => net.vars = vars,
            Replaced::Size { variable, size } => replace(&mut net.sizes, variable, size),
            Replaced::Functions(functions) => net.functions = functions,
            Replaced::Row { place, value } => replace(&mut net.scopes, place, value),
            Replaced::Start { function, start } => replace(&mut net.starts, function, start),
            Replaced::Held { .. } | Replaced::Worked { .. } => {}
        }
        net
    }

    pub fn in_held(self, held: &mut [u64]) {
        if let Replaced::Held { entry, cost } = self {
            replace(held, entry, cost);
        }
    }

    pub fn in_worked(self, work: &mut [u64]) {
        if let Replaced::Worked { entry, cost } = self {
            replace(work, entry, cost);
        }
    }
}

fn replace<T: Copy>(items: &mut [T], at: usize, item: T) {
    if at < items.len() {
        items[at] = item;
    }
}
