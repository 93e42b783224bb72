// The stretch of one function: how many entries variables of these sizes have, and what reads bytes and fills entries for it.
#![tactic(auto)]

pub mod dims;

ghost use Rattle.std.specs.Prelude.{◌≡◌, length, get_or, replicate};

// A byte for each variable or place; 0 past the end.
pub fn byte_in(bytes: &[u8], i: usize) -> u64
    ensures { result ≡ get_or bytes.now i 0 }
{
    bytes.get(i).map_or(0, |byte| u64::from(*byte))
}

pub fn fill(cells: &mut [u64], cost: u64)
    ensures { cells.new ≡ replicate (length cells.old) cost }
{
    cells.fill(cost);
}
