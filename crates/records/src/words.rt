// The words of a record: eight bytes each, the lowest first.
ghost use Rattle.std.specs.Prelude.{◌≡◌, ◌+◌, ◌*◌, ◌≤◌, length};
ghost use Rattle.records.specs.Words.{word_bytes, word_at};

use crate::layout::WORD_BYTES;

// Word w of a record.
pub fn word_at(bytes: &[u8], w: usize) -> u64
    requires { w * word_bytes + word_bytes ≤ length bytes.now }
    ensures { result ≡ word_at bytes.now w }
{
    let at = w * WORD_BYTES;
    let mut word = [0; WORD_BYTES];
    word.copy_from_slice(&bytes[at..at + WORD_BYTES]);
    u64::from_le_bytes(word)
}
