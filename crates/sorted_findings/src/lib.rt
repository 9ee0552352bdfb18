// What program sorted prints for a bench file: its generators in a second order, and by what that order and the one by number differ.
#![tactic(auto)]

ghost use Rattle.std.specs.Prelude.{◌≡◌, [], ◌∷◌, ◌+◌, ◌^◌, ◌≤◌, ◌<◌, length, Ok, IfSome};
ghost use Rattle.std.proofs.lemmas.List.Edits.{sets};
ghost use Rattle.layout.specs.Layout.{machine_length};
ghost use Rattle.layout.specs.Machine.{ticks_of};
ghost use Rattle.base_questions.specs.Questions.{asked};
ghost use Rattle.machine.specs.Questions.{question1, question2};
ghost use Rattle.base_sequences.specs.Sequences.{by_number};
ghost use Rattle.pass_pitch.specs.Pitch.{by_pitch};
ghost use Rattle.file_printed.specs.Text.{line_bytes};
ghost use Rattle.parts.specs.Parts.{parting_of};
ghost use Rattle.sorted_lines.specs.SortedLines.{difference_place, failing_line};
ghost use Rattle.sorted_findings.specs.Findings.{refused_line, found_line, compared_lines, by_file_lines, findings_of, findings_room};

use base_questions::Refusal;
use file_printed::LINE_BYTES;
use layout_texts::Text;
use parts::Parted;
use parts_shown::Difference;
use ring_order::By;

// The room for all that is printed: 17 bytes for each of 256 entries of an order, and a line of 64.
pub const FINDINGS_ROOM: usize = 4416;

// What is refused, which its line names: a bench file with its machine and orders, or a file that is no order file.
#[derive(Clone, Copy, PartialEq, Eq, Debug)]
enum Refused {
    Bench(Refusal),
    OrderFile(Refusal),
}

// The line of a refusal. Answers its length.
fn refusal_line(line: &mut [u8; LINE_BYTES], refused: Refused) -> usize
    ensures value { result ≡ length (refused_line refused) }
    ensures line_after { line.new ≡ sets line.old 0 (refused_line refused) }
{
    match refused {
        Refused::Bench(refusal) => file_printed::refusal_line(line, u32::from(refusal)),
        Refused::OrderFile(refusal) => file_printed::order_refusal_line(line, u32::from(refusal)),
    }
}

// A refusal is all that is printed. Answers its length.
fn put_refusal(refused: Refused, out: &mut [u8; FINDINGS_ROOM]) -> usize
    ensures value { result ≡ length (refused_line refused) }
    ensures out_after { out.new ≡ sets out.old 0 (refused_line refused) }
{
    let mut line = [0u8; LINE_BYTES];
    let size = refusal_line(&mut line, refused);
    file_bytes::put(out, 0, &line[0..size])
}

// Puts the line of a point that fails after the bytes that a buffer has. Answers the place after it.
fn put_failing(
    parted: Parted,
    difference: Difference,
    out: &mut [u8; FINDINGS_ROOM],
    at: usize,
) -> usize
    requires line_bytes_bound { at + line_bytes ≤ findings_room }
    requires difference_bound { difference_place difference < 2 ^ 32 }
    ensures value { result ≡ at + length (failing_line parted.point parted.place difference) }
    ensures out_after { out.new ≡ sets out.old at (failing_line parted.point parted.place difference) }
{
    let mut line = [0u8; LINE_BYTES];
    let size = sorted_lines::failing_line(&mut line, parted.point, parted.place, difference);
    file_bytes::put(out, at, &line[0..size])
}

// Puts the line of what was found of two orders after the bytes that a buffer has. Answers the place after it.
fn put_found(
    text: Text,
    parted: Option<Parted>,
    contents: &[u32; layout::MACHINE_LENGTH],
    items: &[u32],
    first: &[u32],
    second: &[u32],
    out: &mut [u8; FINDINGS_ROOM],
    at: usize,
) -> usize
    requires line_bytes_bound { at + line_bytes ≤ findings_room }
    requires contents_len { length contents.now ≡ machine_length }
    requires some_point { IfSome parted (λ p. 0 < p.point) }
    ensures value { result ≡ at + length (found_line text first.now second.now (parting_of (Ok parted) contents.now items.now)) }
    ensures out_after { out.new ≡ sets out.old at (found_line text first.now second.now (parting_of (Ok parted) contents.now items.now)) }
{
    match parted {
        None => file_bytes::put(out, at, b"equal\n"),
        Some(point) => {
            let difference = parts_shown::differ_by(text, contents, items, first, second);
            put_failing(point, difference, out, at)
        }
    }
}

// What is printed of a machine, the order by number and a second one. Answers its length.
fn put_compared(
    text: Text,
    m: &[u32],
    first: &[u32],
    second: &[u32],
    out: &mut [u8; FINDINGS_ROOM],
) -> usize
    requires { first.now ≡ by_number (ticks_of m.now) }
    ensures value { result ≡ length (compared_lines text m.now second.now) }
    ensures out_after { out.new ≡ sets out.old 0 (compared_lines text m.now second.now) }
{
    let mut contents = [0u32; layout::MACHINE_LENGTH];
    let mut items = [0u32; layout::GENERATORS];
    match parts::parts(text, m, first, second, &mut contents, &mut items) {
        Err(refusal) => put_refusal(Refused::Bench(refusal), out),
        Ok(parted) => {
            let at = sorted_lines::order_lines(out, second);
            put_found(text, parted, &contents, &items, first, second, out, at)
        }
    }
}

// The same of a machine that passes questions 1 and 2, whose T the order by number needs.
fn compared(text: Text, m: &[u32], second: &[u32], out: &mut [u8; FINDINGS_ROOM]) -> usize
    requires { asked (question1 m.now ∷ question2 text m.now ∷ []) ≡ 0 }
    ensures value { result ≡ length (compared_lines text m.now second.now) }
    ensures out_after { out.new ≡ sets out.old 0 (compared_lines text m.now second.now) }
{
    let mut numbers = [0u32; layout::GENERATORS];
    ring_pass::by_number(&mut numbers);
    let t = layout::ticks(m);
    put_compared(text, m, &numbers[0..t], second, out)
}

// What is printed of a machine and the order by pitch. Answers its length.
fn by_pitch(text: Text, m: &[u32], out: &mut [u8; FINDINGS_ROOM]) -> usize
    ensures value { result ≡ length (compared_lines text m.now (by_pitch m.now)) }
    ensures out_after { out.new ≡ sets out.old 0 (compared_lines text m.now (by_pitch m.now)) }
{
    match machine::refusal(text, m) {
        Err(refusal) => put_refusal(Refused::Bench(refusal), out),
        Ok(()) => {
            let mut order = [0u32; layout::GENERATORS];
            pass_pitch::by_pitch(m, &mut order);
            let t = layout::ticks(m);
            compared(text, m, &order[0..t], out)
        }
    }
}

// What is printed of a machine and an order file. Answers its length.
fn by_file(text: Text, m: &[u32], file: &[u8], out: &mut [u8; FINDINGS_ROOM]) -> usize
    ensures value { result ≡ length (by_file_lines text m.now file.now) }
    ensures out_after { out.new ≡ sets out.old 0 (by_file_lines text m.now file.now) }
{
    let read = match file_order::read(file) {
        Ok(read) => read,
        Err(refusal) => return put_refusal(Refused::OrderFile(refusal), out),
    };
    if let Err(refusal) = machine::refusal(text, m) {
        return put_refusal(Refused::Bench(refusal), out);
    }
    compared(text, m, &read.entries[0..read.count], out)
}

// What is printed of a bench file, and of an order file if one is asked for: the first bytes of the buffer. Answers its length.
pub fn findings(file: &[u8], by: By, order: &[u8], out: &mut [u8; FINDINGS_ROOM]) -> usize
    ensures value { result ≡ length (findings_of file.now by order.now) }
    ensures out_after { out.new ≡ sets out.old 0 (findings_of file.now by order.now) }
{
    let mut m = [0u32; layout::MACHINE_LENGTH];
    let mut room = [0u32; file_bench::COMMAND_PLACES];
    match file_bench::read(file, &mut m, &mut room) {
        Err(refusal) => put_refusal(Refused::Bench(refusal), out),
        Ok(contents) => match by {
            By::Number | By::Pitch => by_pitch(contents.text, &m, out),
            By::File => by_file(contents.text, &m, order, out),
        },
    }
}
