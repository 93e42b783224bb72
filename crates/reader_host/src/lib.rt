// The reader as C and Rust hosts call it, to be timed beside readers that are not Rattle.
#![tactic(auto)]

ghost use Rattle.std.specs.Prelude.{◌≡◌, length};
ghost use Rattle.answers.specs.Answers.{number_of};
ghost use Rattle.reader.specs.Reading.{reading, answered, table_after};

use answers::number;

// Reads the text into the lent table, and hands back the number of the refusal, or 0.
#[unsafe(no_mangle)]
pub extern "C" fn read_text(text: &[u8], table: &mut [u64]) -> u64
    ensures value { result ≡ number_of (answered (reading text.now (length table.old))).answer }
    ensures table_after { table.new ≡ table_after (reading text.now (length table.old)) table.old }
{
    let read = reader::reading::read(text, table);
    number(read.answer)
}
