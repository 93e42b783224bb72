// The whole text, into the network's numbers and the lent table.
ghost use Rattle.std.specs.Prelude.{◌≡◌, OnOk, length};
ghost use Rattle.reader.specs.Reading.{reading, answered, table_after};
ghost use Rattle.reader.specs.Ties.Handing.{handed};

use crate::limits::TEXT;
use answers::{Answer, Refusal};
use costs::limits::{ENTRIES, FUNCTIONS, ROWS, VARS};
use costs::networks::Network;
use functions::read_functions;
use headings::domains::read_domains;
use headings::headers::read_header;
use placing::Sheet;
use tokens::words::read_end;

// The answer, and the network: all zeros beside a refusal. No `Result<Network, Refusal>`, since "Beside a refusal and its place, everything returned
// is zero" is promised of it (`answered`).
#[derive(Clone, Copy, Debug, PartialEq, Eq)]
pub struct Reading {
    pub answer: Answer,
    pub network: Network,
}

// Reads a text. The costs fill the first entries of the table and the others are left alone; a refusal leaves zeros throughout.
pub fn read(text: &[u8], table: &mut [u64]) -> Reading
    ensures value { result ≡ answered (reading text.now (length table.old)) }
    ensures table_after { table.new ≡ table_after (reading text.now (length table.old)) table.old }
{
    match read_network(text, table) {
        Ok(network) => Reading {
            answer: Ok(()),
            network,
        },
        Err(refusal) => {
            table.fill(0);
            Reading {
                answer: Err(refusal),
                network: Network {
                    top: 0,
                    constant: 0,
                    vars: 0,
                    sizes: [0; VARS],
                    functions: 0,
                    scopes: [0; ROWS],
                    starts: [0; FUNCTIONS],
                },
            }
        }
    }
}

// The network, its costs delivered into the lent table, unless that is too short.
#[tactic(auto, unfolding(crate::specs::Reading::reading, crate::specs::Reading::network, crate::specs::Reading::body, tokens::specs::Steps::and_then))]
fn read_network(text: &[u8], table: &mut [u64]) -> Result<Network, Refusal>
    ensures value { handed result ≡ answered (reading text.now (length table.old)) }
    ensures table_after { OnOk result (table.new ≡ table_after (reading text.now (length table.old)) table.old) }
{
    if TEXT < text.len() {
        return Err(Refusal::LongText);
    }
    let (head, next) = read_header(text, 0)?;
    let mut sizes = [0u8; VARS];
    let unary = read_domains(&mut sizes, text, next, head.vars, head.greatest)?;
    let mut draft = Sheet {
        network: Network {
            top: head.top,
            constant: 0,
            vars: head.vars,
            sizes,
            functions: 0,
            scopes: [0; ROWS],
            starts: [0; FUNCTIONS],
        },
        entries: unary.entries,
        table: [0; ENTRIES],
    };
    let next = read_functions(&mut draft, text, unary.next, head.functions)?;
    read_end(text, next)?;
    if table.len() < draft.entries {
        return Err(Refusal::ShortTable);
    }
    table[..draft.entries].copy_from_slice(&draft.table[..draft.entries]);
    Ok(draft.network)
}
