// Lent tables: zeros throughout, and the first entries of another.
#![tactic(auto)]

ghost use Rattle.std.specs.Prelude.{◌≡◌, ◌++◌, ◌≤◌, length, take, drop, replicate};

// Zeros throughout: std's `fill` under the promise that the rooms above know.
pub fn clear(table: &mut [u64])
    ensures { table.new ≡ replicate (length table.old) 0 }
{
    table.fill(0);
}

// The first entries of another table; the rest stays: std's `copy_from_slice` under the promise that the rooms above know.
pub fn copy_in(table: &mut [u64], from: &[u64], many: usize)
    requires { (many ≤ length table.old) × (many ≤ length from.now) }
    ensures { table.new ≡ take many from.now ++ drop many table.old }
{
    table[..many].copy_from_slice(&from[..many]);
}
