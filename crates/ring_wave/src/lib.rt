// A bench file as sound: a RIFF/WAVE file in a buffer. A refusal anywhere leaves none.
#![tactic(auto)]

ghost use Rattle.std.specs.Prelude.{◌≡◌, [], ◌∷◌, ◌-◌, ◌≤◌, length, get_or, take};
ghost use Rattle.std.proofs.lemmas.List.Edits.{sets};
ghost use Rattle.layout.specs.Layout.{n_at, machine_length};
ghost use Rattle.base_questions.specs.Questions.{asked};
ghost use Rattle.base_questions.specs.Refusals.{refused, answer_or};
ghost use Rattle.machine.specs.Questions.{question1, question2};
ghost use Rattle.file_wave.specs.WaveFormat.{header_bytes};
ghost use Rattle.file_lines.specs.Lines.{most_passes};
ghost use Rattle.ring_pass.specs.Benches.{ordering_in};
ghost use Rattle.ring_steps.specs.Heard.{heard};
ghost use Rattle.ring_steps.specs.AsCoded.{ringing_at};
ghost use Rattle.ring_steps.specs.declared.Output.TheVariants.{Frames};
ghost use Rattle.ring_gathering.specs.AsCoded.{gathered};
ghost use Rattle.ring_begin.specs.AsCoded.{refusals_line};
ghost use Rattle.ring_begin.specs.Begun.{line_of};
ghost use Rattle.ring_wave.specs.Wave.{wave_file, sounded_from, wave_output_of};
ghost use Rattle.ring_wave.specs.AsCoded.{length_of};

use base_questions::Refusal;
use ring_begin::Line;
use ring_order::By;
use ring_pass::{Bench, Numbers, Tables};
use ring_steps::{Output, Progress};

// The room for the longest file: 44 bytes of header, 6 for each of 65,535 passes, and 64 that a step asks to be free.
pub const WAVE_ROOM: usize = 393318;

// The frames of a ringing, in a buffer behind the header.
fn gather_frames(
    bench: Bench,
    at: Progress,
    m: &mut [u32],
    memory: &mut [u32],
    out: &mut [u8],
) -> Progress
    requires { header_bytes ≤ length out.old }
    ensures length_value { result.length ≡ length (gathered bench.entry.text (ordering_in bench.entry) Frames (length out.old - header_bytes) (ringing_at at m.old memory.old bench.entry.commands.now)).bytes }
    ensures out_after { out.new ≡ sets out.old header_bytes (gathered bench.entry.text (ordering_in bench.entry) Frames (length out.old - header_bytes) (ringing_at at m.old memory.old bench.entry.commands.now)).bytes }
    ensures refused_value { refused result.end ≡ (gathered bench.entry.text (ordering_in bench.entry) Frames (length out.old - header_bytes) (ringing_at at m.old memory.old bench.entry.commands.now)).next.number }
{
    ring_gathering::gather(
        bench,
        Output::Frames,
        at,
        m,
        memory,
        &mut out[file_wave::HEADER_BYTES..],
    )
}

// The file of a machine that passes questions 1 and 2, and its length. A refusal makes no sound.
fn sound(
    bench: Bench,
    passes: u32,
    m: &mut [u32],
    memory: &mut [u32],
    out: &mut [u8; WAVE_ROOM],
) -> Result<usize, Refusal>
    requires m_value { asked (question1 m.old ∷ question2 bench.text m.old ∷ []) ≡ 0 }
    requires passes_le_most_passes { passes ≤ most_passes }
    ensures number_value { refused result ≡ (heard bench.entry.text (ordering_in bench.entry) passes m.old memory.old bench.entry.commands.now).number }
    ensures length_value { answer_or 0 result ≡ length (wave_file (get_or m.old n_at 0) (heard bench.entry.text (ordering_in bench.entry) passes m.old memory.old bench.entry.commands.now)) }
    ensures out_after { take (answer_or 0 result) out.new ≡ wave_file (get_or m.old n_at 0) (heard bench.entry.text (ordering_in bench.entry) passes m.old memory.old bench.entry.commands.now) }
{
    let rate = file_wave::rate(m[layout::N_AT]);
    file_wave::put_header(out, rate, 6 * passes);
    let at = Progress {
        passes,
        taken: 0,
        length: 0,
        end: Ok(()),
    };
    let last = gather_frames(bench, at, m, memory, out);
    match last.end {
        Ok(()) => Ok(file_wave::HEADER_BYTES + last.length),
        Err(refusal) => Err(refusal),
    }
}

// The sound of a machine, and its length. Questions 1 and 2 are asked first.
fn sound_asked(
    bench: Bench,
    passes: u32,
    m: &mut [u32],
    memory: &mut [u32],
    out: &mut [u8; WAVE_ROOM],
) -> Result<usize, Refusal>
    requires passes_le_most_passes { passes ≤ most_passes }
    requires machine_length_in_bounds { machine_length ≤ length m.old }
    ensures length_value { answer_or 0 result ≡ length (sounded_from bench.entry.text (ordering_in bench.entry) passes m.old memory.old bench.entry.commands.now).output }
    ensures out_after { take (answer_or 0 result) out.new ≡ (sounded_from bench.entry.text (ordering_in bench.entry) passes m.old memory.old bench.entry.commands.now).output }
    ensures line_value { refusals_line (refused result) 0 ≡ (sounded_from bench.entry.text (ordering_in bench.entry) passes m.old memory.old bench.entry.commands.now).error }
{
    machine::refusal(bench.text, m)?;
    sound(bench, passes, m, memory, out)
}

// The sound of a bench file by number, by pitch or by an order file: the first bytes of the buffer, and how many. What is refused has none, but a line.
pub fn wave(file: &[u8], by: By, listing: &[u8], out: &mut [u8; WAVE_ROOM]) -> Result<usize, Line>
    ensures length_value { length_of result ≡ length (wave_output_of by listing.now file.now).output }
    ensures out_after { take (length_of result) out.new ≡ (wave_output_of by listing.now file.now).output }
    ensures line_value { line_of result ≡ (wave_output_of by listing.now file.now).error }
{
    let mut m = [0u32; layout::MACHINE_LENGTH];
    let mut room = [0u32; file_bench::COMMAND_PLACES];
    let mut memory = [0u32; layout::MEMORY_WORDS];
    let start = ring_begin::begin(file, by, listing, &mut m, &mut room, &mut memory)?;
    let bench = Bench {
        text: start.text,
        commands: &room[..start.count],
        order: start.order(),
        numbers: &Numbers::new(),
        tables: &Tables::new(),
    };
    match sound_asked(bench, start.passes, &mut m, &mut memory, out) {
        Ok(length) => Ok(length),
        Err(refusal) => Err(Line::refused(refusal)),
    }
}
