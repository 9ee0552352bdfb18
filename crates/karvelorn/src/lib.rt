// What a host in C calls: the proved library on numbers and runs of words. include/karvelorn.h says it in C.
#![tactic(auto)]

ghost use Rattle.std.specs.Prelude.{◌≡◌, drop, cond};
ghost use Rattle.base_questions.specs.Refusals.{refused, answer_or};
ghost use Rattle.machine.specs.Questions.{fresh_answer, fresh_run};
ghost use Rattle.pass_model.specs.Pass.{pass_of};
ghost use Rattle.command_update.specs.Update.{outcome, update_of, taken_count};
ghost use Rattle.compare.specs.Compare.{compare_of};
ghost use Rattle.any_order.specs.AnyOrder.{any_order_of};
ghost use Rattle.any_order_kept.specs.Keeping.{keep_of, change_of};
ghost use Rattle.parts.specs.Parts.{parts_of};
ghost use Rattle.join_model.specs.Join.{join_of};
ghost use Rattle.layout_texts.specs.declared.Text.TheVariants.{Of1978, Old};
ghost use Rattle.chain.specs.Chain.{chain_of};
ghost use Rattle.file_read.specs.Read.{read_into};
ghost use Rattle.ring_block.specs.Block.{block_of};

use any_order_sums::Kept;
use base_questions::Refusal;
use chain_entries::Chain;
use chain_numbers::Numbers;
use file_read::ReadAnswer;
use layout_texts::Text;
use parts::Parted;
use pass::Passed;
use pass_sums::Clipped;

// What a host in C is told of an answer: the number of the refusing question or 0, and beside it a value, as the C interface needs it.
#[derive(Clone, Copy)]
struct Told<T: Copy> {
    number: u32,
    value: T,
}

// An answer as a host is told it: of a refused call another value stands beside the number.
fn told_of<T: Copy>(answer: Result<T, Refusal>, other: T) -> Told<T>
    ensures number { result.number ≡ refused answer }
    ensures value { result.value ≡ answer_or other answer }
{
    match answer {
        Ok(value) => Told { number: 0, value },
        Err(refusal) => Told {
            number: u32::from(refusal),
            value: other,
        },
    }
}

// A fresh machine.
#[unsafe(no_mangle)]
pub extern "C" fn karvelorn_fresh(m: &mut [u32]) -> u32
    ensures value { result ≡ fresh_answer m.old }
    ensures m_after { m.new ≡ fresh_run m.old }
{
    base_questions::number(machine::fresh(m))
}

// A pass of a machine of a text. The answer is the number of the refusing question or 0; read and written get how many items were, clipped a mark for each word of generator-this: 1 where it left its range, else 0.
fn pass(
    text: Text,
    m: &mut [u32],
    order: &[u32],
    items: &[u32],
    places: &mut [u32],
    memory: &mut [u32],
    read: &mut usize,
    written: &mut usize,
    clipped: &mut Clipped,
) -> u32
    ensures { record { number = result; read = read.new; written = written.new; clipped = clipped.new; machine = m.new; places = places.new; memory = memory.new } ≡ pass_of text m.old (record { order = order.entry.now; items = items.now; places = places.old; memory = memory.old }) }
{
    let unpassed = Passed {
        read: 0,
        written: 0,
        clipped: [0; layout::QUADRANT_WORDS],
    };
    let done = told_of(pass::pass(text, m, order, items, places, memory), unpassed);
    *read = done.value.read;
    *written = done.value.written;
    let marks = done.value.clipped;
    *clipped = marks;
    done.number
}

// A pass.
#[unsafe(no_mangle)]
pub extern "C" fn karvelorn_pass(
    m: &mut [u32],
    order: &[u32],
    items: &[u32],
    places: &mut [u32],
    memory: &mut [u32],
    read: &mut usize,
    written: &mut usize,
    clipped: &mut Clipped,
) -> u32
    ensures { record { number = result; read = read.new; written = written.new; clipped = clipped.new; machine = m.new; places = places.new; memory = memory.new } ≡ pass_of Of1978 m.old (record { order = order.entry.now; items = items.now; places = places.old; memory = memory.old }) }
{
    pass(
        Text::Of1978,
        m,
        order,
        items,
        places,
        memory,
        read,
        written,
        clipped,
    )
}

// A pass of a machine of the older text.
#[unsafe(no_mangle)]
pub extern "C" fn karvelorn_old_pass(
    m: &mut [u32],
    order: &[u32],
    items: &[u32],
    places: &mut [u32],
    memory: &mut [u32],
    read: &mut usize,
    written: &mut usize,
    clipped: &mut Clipped,
) -> u32
    ensures { record { number = result; read = read.new; written = written.new; clipped = clipped.new; machine = m.new; places = places.new; memory = memory.new } ≡ pass_of Old m.old (record { order = order.entry.now; items = items.now; places = places.old; memory = memory.old }) }
{
    pass(
        Text::Old,
        m,
        order,
        items,
        places,
        memory,
        read,
        written,
        clipped,
    )
}

// An update. The answer is the number of the refusing question or 0; taken gets how many commands were.
#[unsafe(no_mangle)]
pub extern "C" fn karvelorn_update(m: &mut [u32], commands: &[u32], taken: &mut usize) -> u32
    ensures commands_after { outcome result m.new (drop taken.new commands.now) ≡ update_of m.old commands.now }
    ensures taken_after { taken.new ≡ taken_count m.old commands.now }
{
    let left = command_update::update(m, commands);
    *taken = commands.len() - left.rest.len();
    base_questions::number(left.end)
}

// Whether two orders of a machine of a text are equal. The answer is the number of the refusing question or 0; equal gets 1 where they are, else 0.
fn compare(text: Text, m: &[u32], first: &[u32], second: &[u32], equal: &mut u32) -> u32
    ensures value { result ≡ (compare_of text m.now first.now second.now).number }
    ensures equal_after { equal.new ≡ cond (compare_of text m.now first.now second.now).equal 1 0 }
{
    let compared = told_of(compare::compare(text, m, first, second), false);
    *equal = compared.value as u32;
    compared.number
}

// Whether two orders are equal.
#[unsafe(no_mangle)]
pub extern "C" fn karvelorn_compare(
    m: &[u32],
    first: &[u32],
    second: &[u32],
    equal: &mut u32,
) -> u32
    ensures value { result ≡ (compare_of Of1978 m.now first.now second.now).number }
    ensures equal_after { equal.new ≡ cond (compare_of Of1978 m.now first.now second.now).equal 1 0 }
{
    compare(Text::Of1978, m, first, second, equal)
}

// Whether two orders are equal on a machine of the older text.
#[unsafe(no_mangle)]
pub extern "C" fn karvelorn_old_compare(
    m: &[u32],
    first: &[u32],
    second: &[u32],
    equal: &mut u32,
) -> u32
    ensures value { result ≡ (compare_of Old m.now first.now second.now).number }
    ensures equal_after { equal.new ≡ cond (compare_of Old m.now first.now second.now).equal 1 0 }
{
    compare(Text::Old, m, first, second, equal)
}

// Whether every order leaves the same. The answer is the number of the refusing question or 0; alike gets 1 where every order does, else 0.
#[unsafe(no_mangle)]
pub extern "C" fn karvelorn_any_order(m: &[u32], alike: &mut u32) -> u32
    ensures value { result ≡ (any_order_of m.now).number }
    ensures alike_after { alike.new ≡ cond (any_order_of m.now).alike 1 0 }
{
    let answer = told_of(any_order::any_order(m), false);
    *alike = answer.value as u32;
    answer.number
}

// Makes what is kept beside a machine. The answer is the number of the refusing question or 0.
#[unsafe(no_mangle)]
pub extern "C" fn karvelorn_keep(m: &[u32], kept: &mut Kept) -> u32
    ensures { record { number = result; kept = kept.new } ≡ keep_of m.now kept.old }
{
    base_questions::number(any_order_kept::keep(m, kept))
}

// A change of one partial, with what is kept brought up to date. The answer is the number of the refusing question or 0.
#[unsafe(no_mangle)]
pub extern "C" fn karvelorn_change(
    m: &mut [u32],
    kept: &mut Kept,
    kind: u32,
    generator: u32,
    value: u32,
) -> u32
    ensures { record { number = result; machine = m.new; kept = kept.new } ≡ change_of m.old kept.old (record { kind = kind; generator = generator; value = value }) }
{
    base_questions::number(any_order_kept::change_by_numbers(m, kept, kind, generator, value))
}

// What parts two orders of a machine of a text. The answer is the number of the refusing question or 0; point gets 0 where they are equal, else the first of
// the four points that fails, and place the lowest place at which it fails; contents and items get what shows it.
fn parts(
    text: Text,
    m: &[u32],
    first: &[u32],
    second: &[u32],
    contents: &mut [u32],
    items: &mut [u32],
    point: &mut u32,
    place: &mut u32,
) -> u32
    ensures { record { number = result; point = point.new; place = place.new; contents = contents.new; items = items.new } ≡ parts_of text m.now first.now second.now contents.old items.old }
{
    let parting = told_of(parts::parts(text, m, first, second, contents, items), None);
    let parted = parting.value.unwrap_or(Parted { point: 0, place: 0 });
    *point = parted.point;
    *place = parted.place;
    parting.number
}

// What parts two orders.
#[unsafe(no_mangle)]
pub extern "C" fn karvelorn_parts(
    m: &[u32],
    first: &[u32],
    second: &[u32],
    contents: &mut [u32],
    items: &mut [u32],
    point: &mut u32,
    place: &mut u32,
) -> u32
    ensures { record { number = result; point = point.new; place = place.new; contents = contents.new; items = items.new } ≡ parts_of Of1978 m.now first.now second.now contents.old items.old }
{
    parts(
        Text::Of1978,
        m,
        first,
        second,
        contents,
        items,
        point,
        place,
    )
}

// What parts two orders on a machine of the older text.
#[unsafe(no_mangle)]
pub extern "C" fn karvelorn_old_parts(
    m: &[u32],
    first: &[u32],
    second: &[u32],
    contents: &mut [u32],
    items: &mut [u32],
    point: &mut u32,
    place: &mut u32,
) -> u32
    ensures { record { number = result; point = point.new; place = place.new; contents = contents.new; items = items.new } ≡ parts_of Old m.now first.now second.now contents.old items.old }
{
    parts(Text::Old, m, first, second, contents, items, point, place)
}

// Numbers for a chain of modifiers. The answer is the number of the refusing question or 0; numbers get those of the entries.
#[unsafe(no_mangle)]
pub extern "C" fn karvelorn_chain(entries: &[u32], names: &[u32], numbers: &mut Numbers) -> u32
    ensures { record { number = result; numbers = numbers.new } ≡ chain_of (record { entries = entries.entry.now; names = names.now }) numbers.old }
{
    let chain = Chain { entries, names };
    base_questions::number(chain::chain(&chain, numbers))
}

// Two machines joined: the first becomes the joined one, the second is only read. The answer is the number of the refusing question or 0.
#[unsafe(no_mangle)]
pub extern "C" fn karvelorn_join(m: &mut [u32], second: &[u32]) -> u32
    ensures { record { number = result; machine = m.new } ≡ join_of m.old second.now }
{
    base_questions::number(join::join(m, second))
}

// Reads a bench file. The answer is the number of the refusing question or 0; text gets the number of the file's text, passes how many passes it has, count how many commands.
#[unsafe(no_mangle)]
pub extern "C" fn karvelorn_read(
    file: &[u8],
    m: &mut [u32],
    commands: &mut [u32],
    text: &mut u32,
    passes: &mut u32,
    count: &mut usize,
) -> u32
    ensures { record { number = result; text = text.new; passes = passes.new; count = count.new; machine = m.new; commands = commands.new } ≡ read_into file.now m.old commands.old }
{
    let unread = ReadAnswer {
        text: 0,
        passes: 0,
        count: 0,
    };
    let contents = told_of(file_read::read(file, m, commands), unread);
    *text = contents.value.text;
    *passes = contents.value.passes;
    *count = contents.value.count;
    contents.number
}

// A block of passes of a machine of a text. The answer is the number of the refusing question or 0; done gets how many passes were done, taken how many commands were taken.
fn ring(
    text: Text,
    m: &mut [u32],
    memory: &mut [u32],
    commands: &[u32],
    order: &[u32],
    passes: u32,
    dacs: &[u32],
    frames: &mut [u32],
    done: &mut u32,
    taken: &mut usize,
) -> u32
    ensures { record { number = result; done = done.new; taken = taken.new; machine = m.new; memory = memory.exit.now; frames = frames.new } ≡ block_of text m.old (record { memory = memory.entry.now; commands = commands.now; order = order.now; passes = passes; dacs = dacs.now; frames = frames.old }) }
{
    let block = ring_block::ring(text, m, memory, commands, order, passes, dacs, frames);
    *done = block.done;
    *taken = block.taken;
    base_questions::number(block.end)
}

// A block of passes.
#[unsafe(no_mangle)]
pub extern "C" fn karvelorn_ring(
    m: &mut [u32],
    memory: &mut [u32],
    commands: &[u32],
    order: &[u32],
    passes: u32,
    dacs: &[u32],
    frames: &mut [u32],
    done: &mut u32,
    taken: &mut usize,
) -> u32
    ensures { record { number = result; done = done.new; taken = taken.new; machine = m.new; memory = memory.exit.now; frames = frames.new } ≡ block_of Of1978 m.old (record { memory = memory.entry.now; commands = commands.now; order = order.now; passes = passes; dacs = dacs.now; frames = frames.old }) }
{
    ring(
        Text::Of1978,
        m,
        memory,
        commands,
        order,
        passes,
        dacs,
        frames,
        done,
        taken,
    )
}

// A block of passes of a machine of the older text, which no updates follow.
#[unsafe(no_mangle)]
pub extern "C" fn karvelorn_old_ring(
    m: &mut [u32],
    memory: &mut [u32],
    commands: &[u32],
    order: &[u32],
    passes: u32,
    dacs: &[u32],
    frames: &mut [u32],
    done: &mut u32,
    taken: &mut usize,
) -> u32
    ensures { record { number = result; done = done.new; taken = taken.new; machine = m.new; memory = memory.exit.now; frames = frames.new } ≡ block_of Old m.old (record { memory = memory.entry.now; commands = commands.now; order = order.now; passes = passes; dacs = dacs.now; frames = frames.old }) }
{
    ring(
        Text::Old,
        m,
        memory,
        commands,
        order,
        passes,
        dacs,
        frames,
        done,
        taken,
    )
}
