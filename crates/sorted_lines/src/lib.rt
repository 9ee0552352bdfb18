// The lines that program sorted prints, as text in a buffer.
#![tactic(auto)]

ghost use Rattle.std.specs.Prelude.{◌≡◌, ◌+◌, ◌*◌, ◌^◌, ◌≤◌, ◌<◌, length};
ghost use Rattle.std.proofs.lemmas.List.Edits.{sets};
ghost use Rattle.file_printed.specs.Text.{line_bytes};
ghost use Rattle.sorted_lines.specs.SortedLines.{entry_line, order_lines, difference_text, difference_place, failing_line, entry_bytes};

use file_printed::LINE_BYTES;
use parts_shown::Difference;

// The line of an entry of an order. Answers its length.
pub fn entry_line(line: &mut [u8; LINE_BYTES], g: u32) -> usize
    ensures value { result ≡ length (entry_line g) }
    ensures line_after { line.new ≡ sets line.old 0 (entry_line g) }
{
    let a = file_printed::put_named(line, 0, b"order=", g);
    file_bytes::put(line, a, b"\n")
}

// The name and the place of a difference, in a line from a place on. Answers the place after it.
fn put_difference(line: &mut [u8; LINE_BYTES], at: usize, difference: Difference) -> usize
    requires at_bound { at + 19 ≤ line_bytes }
    requires difference_bound { difference_place difference < 2 ^ 32 }
    ensures value { result ≡ at + length (difference_text difference) }
    ensures line_after { line.new ≡ sets line.old at (difference_text difference) }
{
    match difference {
        Difference::Word(w) => file_printed::put_named(line, at, b" word=", w as u32),
        Difference::Written(i) => file_printed::put_named(line, at, b" written=", i as u32),
    }
}

// The line of a point that fails. Answers its length.
pub fn failing_line(
    line: &mut [u8; LINE_BYTES],
    point: u32,
    place: u32,
    difference: Difference,
) -> usize
    requires { difference_place difference < 2 ^ 32 }
    ensures value { result ≡ length (failing_line point place difference) }
    ensures line_after { line.new ≡ sets line.old 0 (failing_line point place difference) }
{
    let a = file_printed::put_named(line, 0, b"point=", point);
    let b = file_printed::put_named(line, a, b" place=", place);
    let c = put_difference(line, b, difference);
    file_bytes::put(line, c, b"\n")
}

// Puts the line of an entry into a buffer from a place on, and answers the place after it.
fn put_entry(out: &mut [u8], at: usize, g: u32) -> usize
    requires { at + entry_bytes ≤ length out.old }
    ensures value { result ≡ at + length (entry_line g) }
    ensures out_after { out.new ≡ sets out.old at (entry_line g) }
{
    let mut line = [0u8; LINE_BYTES];
    let size = entry_line(&mut line, g);
    file_bytes::put(out, at, &line[0..size])
}

// Puts the lines of an order at the start of a buffer, and answers their length.
pub fn order_lines(out: &mut [u8], order: &[u32]) -> usize
    requires { entry_bytes * length order.now ≤ length out.old }
    ensures value { result ≡ length (order_lines order.now) }
    ensures out_after { out.new ≡ sets out.old 0 (order_lines order.now) }
{
    let mut at: usize = 0;
    for entry in order {
        at = put_entry(out, at, *entry);
    }
    at
}
