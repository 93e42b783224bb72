// The values of a record's plan.
ghost use Rattle.std.specs.Prelude.{◌≡◌, [], ◌∷◌, ℕ, ◌+◌, ◌*◌, ◌≤◌, ◌<◌, length, get_or};
ghost use Rattle.costs.specs.Limits.{vars_most, size_most};
ghost use Rattle.costs.specs.Networks.{sizes_of};
ghost use Rattle.records.specs.Words.{word_bytes, word_at};
ghost use Rattle.records.specs.Records.{header_words, told};
ghost use Rattle.spelling.specs.Spelling.{no_fault};
ghost use Rattle.desk.specs.Faults.{fault_in};
ghost use Rattle.desk.specs.Checking.{values_rule};

use costs::limits::VARS;
use costs::networks::Network;
use records::layout::HEADER_WORDS;
use records::words::word_at;
use spelling::faults::Kept;

// The first word with a value that is not below its variable's size.
pub fn values_fault(bytes: &[u8], net: &Network) -> Kept
    requires { (net.now.vars ≤ vars_most) × ((header_words + net.now.vars) * word_bytes ≤ length bytes.now) }
    ensures { result ≡ fault_in (values_rule net.now.vars (sizes_of net.now.sizes) (word_at bytes.now) ∷ []) no_fault }
{
    for v in 0..net.vars {
        // `usize` has no `From<u64>`
        if net.size(v) <= word_at(bytes, HEADER_WORDS + v) as usize {
            return Err(HEADER_WORDS + v);
        }
    }
    Ok(())
}

// The values, where each is below a size.
pub fn plan_told(bytes: &[u8], vars: usize) -> [u8; VARS]
    requires vars_le_vars_most { (vars ≤ vars_most) × ((header_words + vars) * word_bytes ≤ length bytes.now) }
    requires by_index { (v : ℕ) → v < vars → told (word_at bytes.now) v < size_most }
    ensures { (v : ℕ) → v < vars → get_or result v 0 ≡ told (word_at bytes.now) v }
{
    let mut choice = [0u8; VARS];
    for v in 0..vars {
        // `u8` has no `From<u64>`, and `try_from` would need an arm that no value below a size reaches
        choice[v] = word_at(bytes, HEADER_WORDS + v) as u8;
    }
    choice
}
