// Steps of a ringing gathered in a buffer.
#![tactic(auto)]

ghost use Rattle.std.specs.Prelude.{◌≡◌, ◌≢◌, ◌+◌, ◌≤◌, length};
ghost use Rattle.std.proofs.lemmas.List.Edits.{sets};
ghost use Rattle.base_questions.specs.Refusals.{refused};
ghost use Rattle.file_printed.specs.Text.{line_bytes};
ghost use Rattle.ring_pass.specs.BenchPass.{passed};
ghost use Rattle.ring_pass.specs.Benches.{ordering_in};
ghost use Rattle.ring_steps.specs.AsCoded.{ringing_at, step_of, commands_taken};
ghost use Rattle.ring_gathering.specs.AsCoded.{gathered};

use base_questions::Refusal;
use file_printed::LINE_BYTES;
use ring_pass::Bench;
use ring_steps::{Output, Progress};

// One step, what it gives out put after the bytes that a buffer has. A pass is left, and which question refuses it is known.
// Beside `ring_block::step_into`: the two share `ring_steps::step` alone; this one puts the bytes of its line, that one words of chosen DACs, and counts the passes done.
fn step_into(
    bench: Bench,
    output: Output,
    at: Progress,
    known: Result<(), Refusal>,
    m: &mut [u32],
    memory: &mut [u32],
    out: &mut [u8],
) -> Progress
    requires line_bytes_in_bounds { at.length + line_bytes ≤ length out.old }
    requires passes_nonzero { at.passes ≢ 0 }
    requires number_value { refused known ≡ (passed bench.text (ordering_in bench) m.old memory.old).number }
    ensures length_value { result.length ≡ at.length + length (step_of bench.entry.text (ordering_in bench.entry) output (ringing_at at m.old memory.old bench.entry.commands.now)).bytes }
    ensures out_after { out.new ≡ sets out.old at.length (step_of bench.entry.text (ordering_in bench.entry) output (ringing_at at m.old memory.old bench.entry.commands.now)).bytes }
    ensures commands_after { ringing_at result m.new memory.new bench.entry.commands.now ≡ (step_of bench.entry.text (ordering_in bench.entry) output (ringing_at at m.old memory.old bench.entry.commands.now)).next }
    ensures taken_value { result.taken ≡ at.taken + commands_taken (ringing_at at m.old memory.old bench.entry.commands.now) (step_of bench.entry.text (ordering_in bench.entry) output (ringing_at at m.old memory.old bench.entry.commands.now)) }
{
    let mut line = [0u8; LINE_BYTES];
    let next = ring_steps::step(bench, output, at, known, m, memory, &mut line);
    let length = file_bytes::put(out, at.length, &line[..next.length]);
    Progress { length, ..next }
}

// Steps until no pass is left or the buffer may not hold another line or frame; the length answered is that of all that they give out. The questions of a pass are asked once, and again only after a step that took commands.
pub fn gather(
    bench: Bench,
    output: Output,
    at: Progress,
    m: &mut [u32],
    memory: &mut [u32],
    out: &mut [u8],
) -> Progress
    ensures length_value { result.length ≡ length (gathered bench.entry.text (ordering_in bench.entry) output (length out.old) (ringing_at at m.old memory.old bench.entry.commands.now)).bytes }
    ensures out_after { out.new ≡ sets out.old 0 (gathered bench.entry.text (ordering_in bench.entry) output (length out.old) (ringing_at at m.old memory.old bench.entry.commands.now)).bytes }
    ensures commands_after { ringing_at result m.new memory.new bench.entry.commands.now ≡ (gathered bench.entry.text (ordering_in bench.entry) output (length out.old) (ringing_at at m.old memory.old bench.entry.commands.now)).next }
    ensures taken_value { result.taken ≡ at.taken + commands_taken (ringing_at at m.old memory.old bench.entry.commands.now) (gathered bench.entry.text (ordering_in bench.entry) output (length out.old) (ringing_at at m.old memory.old bench.entry.commands.now)) }
{
    let mut known = bench.refusal(m, memory);
    let mut here = Progress { length: 0, ..at };
    while here.passes != 0 {
        if out.len() < here.length + LINE_BYTES {
            return here;
        }
        let next = step_into(bench, output, here, known, m, memory, out);
        let took = next.taken != here.taken;
        known = ring_steps::next_refusal(bench, m, memory, known, took);
        here = next;
    }
    here
}
