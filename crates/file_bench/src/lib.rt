// The bench file's reader: one sweep judges its lines, a second sets what they say.
#![tactic(auto)]

ghost use Rattle.std.specs.Prelude.{◌≡◌, true, ◌+◌, ◌<◌, length, set};
ghost use Rattle.std.proofs.lemmas.List.Edits.{sets};
ghost use Rattle.layout.specs.Layout.{machine_length};
ghost use Rattle.layout.specs.Machine.{Reaches, with_update_ticks};
ghost use Rattle.file_lines.specs.Lines.{file_bytes, lines_of, ended};
ghost use Rattle.file_bench.specs.BenchFile.{with_word, commands_of, file_of, file_refusal, bench_answer, read_of};
ghost use Rattle.file_bench.specs.AsCoded.{outline, judged_line, with_words, all_commands, said, contents_of};

use base_questions::Refusal;
use file_lines::{Line, Lines};
use file_phases::Phase;
use layout_texts::Text;

// A file under way: its title, its phase, its passes, and how many commands it has.
#[derive(Clone, Copy)]
pub struct File {
    pub title: Option<Text>,
    pub phase: Phase,
    pub passes: u32,
    pub count: usize,
}

// What a file says: its text, its passes, and how many commands it has.
#[derive(Clone, Copy)]
pub struct Contents {
    pub text: Text,
    pub passes: u32,
    pub count: usize,
}

// The room for a file's commands.
pub const COMMAND_PLACES: usize = 4096;

// A file with a line more.
fn judge_line(reading: File, line: Line) -> File
    requires { reading.count < file_bytes }
    ensures { result ≡ judged_line reading line }
{
    let phase = file_phases::phase_after(reading.title, reading.phase, line);
    let next = File { phase, ..reading };
    match line {
        Line::Titled(title) => File { title, ..next },
        Line::Passes(passes) => File { passes, ..next },
        Line::Command(_) => File {
            count: next.count + 1,
            ..next
        },
        Line::Word(_, _) | Line::Other => next,
    }
}

// What the lines of a file are; nothing is set.
fn judge(file: &[u8]) -> File
    requires { ended file.now ≡ true }
    ensures { result ≡ outline (file_of file.now) }
{
    let mut reading = File {
        title: Some(Text::Of1978),
        phase: Phase::Start,
        passes: 0,
        count: 0,
    };
    for line in Lines(file) {
        reading = judge_line(reading, file_lines::read_line(line));
    }
    reading
}

// Sets the word at a place, if there is one.
fn put(m: &mut [u32], at: usize, value: u32)
    ensures { m.new ≡ set m.old at value }
{
    // `get_mut` was tried: at its None the check knows nothing of the run.
    if at < m.len() {
        m[at] = value;
    }
}

// Sets what a line says: a word of the machine, or the next command. Answers how many commands there are.
fn load_line(line: Line, m: &mut [u32], room: &mut [u32], count: usize) -> usize
    requires { count < file_bytes }
    ensures value { result ≡ count + length (commands_of line) }
    ensures m_after { m.new ≡ with_word m.old line }
    ensures room_after { room.new ≡ sets room.old count (commands_of line) }
{
    match line {
        Line::Titled(_) | Line::Passes(_) | Line::Other => count,
        Line::Word(place, value) => {
            put(m, place, value);
            count
        }
        Line::Command(c) => {
            put(room, count, c);
            count + 1
        }
    }
}

// Sets what the lines of a file say.
fn load(file: &[u8], m: &mut [u32], room: &mut [u32])
    requires { ended file.now ≡ true }
    ensures m_after { m.new ≡ with_words m.old (lines_of file.now) }
    ensures room_after { room.new ≡ sets room.old 0 (all_commands (lines_of file.now)) }
{
    let mut count = 0;
    for line in Lines(file) {
        count = load_line(file_lines::read_line(line), m, room, count);
    }
}

// Works out the update ticks again from T and N.
fn count_update_ticks(m: &mut [u32])
    requires { Reaches m.old }
    ensures { m.new ≡ with_update_ticks m.old }
{
    let t = m[layout::T_AT];
    let n = m[layout::N_AT];
    m[layout::UPDATE_TICKS_AT] = layout::update_ticks(t, n);
}

// What a file says; nothing is set.
pub fn judge_file(file: &[u8]) -> Result<Contents, Refusal>
    ensures { said result ≡ contents_of file.now }
{
    if !file_lines::ended(file) {
        return Err(Refusal::BenchFile);
    }
    let reading = judge(file);
    if !file_phases::fit(reading.phase) {
        return Err(Refusal::BenchFile);
    }
    let Some(text) = reading.title else {
        return Err(Refusal::KnownText);
    };
    Ok(Contents {
        text,
        passes: reading.passes,
        count: reading.count,
    })
}

// Sets what a file says that no question refuses: its words on a fresh machine with the update ticks that follow, its commands from the room's first place on.
pub fn load_file(file: &[u8], m: &mut [u32], room: &mut [u32])
    requires file_value { file_refusal file.now ≡ 0 }
    requires m_len { length m.old ≡ machine_length }
    ensures m_after { m.new ≡ (file_of file.now).machine }
    ensures room_after { room.new ≡ sets room.old 0 (file_of file.now).commands }
{
    // It has the length of a machine, so that nothing refuses it.
    let _ = machine::fresh(m);
    load(file, m, room);
    count_update_ticks(m);
}

// Reads a bench file. A refused file changes nothing.
pub fn read(
    file: &[u8],
    m: &mut [u32; layout::MACHINE_LENGTH],
    room: &mut [u32; COMMAND_PLACES],
) -> Result<Contents, Refusal>
    ensures { bench_answer result m.new room.new ≡ read_of file.now m.old room.old }
{
    let contents = judge_file(file)?;
    load_file(file, m, room);
    Ok(contents)
}
