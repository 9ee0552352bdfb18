// An order file's reader: each line names a generator, the next entry of an order.
#![tactic(auto)]

ghost use Rattle.std.specs.Prelude.{◌≡◌, true};
ghost use Rattle.file_lines.specs.Lines.{ended};
ghost use Rattle.file_order.specs.OrderFile.{entry_of, order_answer, read_of};

use base_questions::Refusal;
use file_lines::Lines;

// What an order file says: how many entries there are, and the entries with zeros after them.
#[derive(Clone, Copy)]
pub struct Entries {
    pub count: usize,
    pub entries: [u32; layout::GENERATORS],
}

// The generator that a line names, if any.
fn read_entry(line: &[u8]) -> Option<u32>
    ensures { result ≡ entry_of line.now }
{
    match line.strip_prefix(b"order=") {
        Some(name) => file_numbers::decimal(name, layout::GENERATORS as u64),
        None => None,
    }
}

// Reads the lines of a file, each an entry, until one is none or there are too many.
fn read_lines(file: &[u8]) -> Result<Entries, Refusal>
    requires { ended file.now ≡ true }
    ensures { order_answer result ≡ read_of file.now }
{
    let mut entries = [0u32; layout::GENERATORS];
    let mut count = 0;
    for line in Lines(file) {
        let Some(g) = read_entry(line) else {
            return Err(Refusal::BenchFile);
        };
        if layout::GENERATORS <= count {
            return Err(Refusal::BenchFile);
        }
        entries[count] = g;
        count += 1;
    }
    Ok(Entries { count, entries })
}

// Reads an order file.
pub fn read(file: &[u8]) -> Result<Entries, Refusal>
    ensures { order_answer result ≡ read_of file.now }
{
    if !file_lines::ended(file) {
        return Err(Refusal::BenchFile);
    }
    read_lines(file)
}
