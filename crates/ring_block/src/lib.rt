// A ringing in blocks: so many passes, each followed by an update with the commands still left, with the chosen DACs of each in a run for frames.
#![tactic(auto)]

ghost use Rattle.std.specs.Prelude.{◌≡◌, ◌≢◌, ◌+◌, ◌*◌, ◌^◌, ◌≤◌, ◌<◌, length, option_copied};
ghost use Rattle.std.proofs.lemmas.List.Edits.{sets};
ghost use Rattle.base_questions.specs.Refusals.{refused};
ghost use Rattle.ring_pass.specs.BenchPass.{ordering_of, passed};
ghost use Rattle.ring_pass.specs.Benches.{ordering_in};
ghost use Rattle.ring_steps.specs.AsCoded.{step_of, commands_taken};
ghost use Rattle.ring_steps.specs.declared.Output.TheVariants.{Frames};
ghost use Rattle.ring_block.specs.Block.{rung, ordering_for, dacs_of, fitting, block_from, block_of};
ghost use Rattle.ring_block.specs.AsCoded.{Sounding, ringing_at, done_by, frame_by};

use base_questions::Refusal;
use file_printed::LINE_BYTES;
use layout_texts::Text;
use ring_pass::{Bench, Numbers, Tables};
use ring_steps::{Output, Progress};

// What a block answers: the passes done, the commands taken, and the refusal that ended it, if one did.
#[derive(Clone, Copy)]
pub struct Answer {
    pub done: u32,
    pub taken: usize,
    pub end: Result<(), Refusal>,
}

// How many passes have room for their frames.
fn fitting(width: usize, room: usize, passes: u32) -> u32
    ensures { result ≡ fitting width room passes }
{
    if width == 0 {
        return passes;
    }
    let frames = room / width;
    if passes as usize <= frames {
        return passes;
    }
    frames as u32
}

// Puts a frame at a place. Answers the place after it.
fn put_frame(frames: &mut [u32], at: usize, dacs: &[u32], m: &[u32]) -> usize
    requires dacs_in_bounds { at + length dacs.now ≤ length frames.old }
    requires sounding { Sounding m.now }
    ensures value { result ≡ at + length dacs.now }
    ensures frames_after { frames.new ≡ sets frames.old at (dacs_of dacs.now m.now) }
{
    for (i, &dac) in dacs.iter().enumerate() {
        let d = (dac % 16) as usize;
        frames[at + i] = base_words::extend::<20>(m[layout::DACS_AT + d]);
    }
    at + dacs.len()
}

// How far a block is: the passes left, the passes done, the commands taken, the place of the next frame, and the refusal that ended it, if one did.
#[derive(Clone, Copy)]
struct Stage {
    passes: u32,
    done: u32,
    taken: usize,
    place: usize,
    end: Result<(), Refusal>,
}

// One step, and its frame where nothing is refused. A pass is left, which question refuses it is known, and there is room for its frame.
// Beside `ring_gathering::step_into`: the two share `ring_steps::step` alone; that one puts the bytes of its line, this one words of chosen DACs, and counts the passes done.
fn step_into(
    bench: Bench,
    at: Stage,
    known: Result<(), Refusal>,
    m: &mut [u32],
    memory: &mut [u32],
    dacs: &[u32],
    frames: &mut [u32],
) -> Stage
    requires passes_nonzero { (at.passes ≢ 0) × (at.done + at.passes < 2 ^ 32) }
    requires dacs_in_bounds { at.place + length dacs.now ≤ length frames.old }
    requires number_value { refused known ≡ (passed bench.text (ordering_in bench) m.old memory.old).number }
    ensures commands_after { ringing_at result m.new memory.new bench.entry.commands.now ≡ (step_of bench.entry.text (ordering_in bench.entry) Frames (ringing_at at m.old memory.old bench.entry.commands.now)).next }
    ensures taken_value { result.taken ≡ at.taken + commands_taken (ringing_at at m.old memory.old bench.entry.commands.now) (step_of bench.entry.text (ordering_in bench.entry) Frames (ringing_at at m.old memory.old bench.entry.commands.now)) }
    ensures done_value { (result.done ≡ at.done + done_by (refused result.end)) × (result.place ≡ at.place + length (frame_by (refused result.end) dacs.now m.new)) }
    ensures frames_after { frames.new ≡ sets frames.old at.place (frame_by (refused result.end) dacs.now m.new) }
{
    let before = Progress {
        passes: at.passes,
        taken: at.taken,
        length: 0,
        end: at.end,
    };
    let mut line = [0u8; LINE_BYTES];
    let next = ring_steps::step(bench, Output::Frames, before, known, m, memory, &mut line);
    let stage = Stage {
        passes: next.passes,
        taken: next.taken,
        end: next.end,
        ..at
    };
    if stage.end.is_err() {
        return stage;
    }
    let place = put_frame(frames, at.place, dacs, m);
    Stage {
        done: at.done + 1,
        place,
        ..stage
    }
}

// So many passes, for whose frames there is room. The questions of a pass are asked once, and again only after an update that took commands.
fn ring_by(
    bench: Bench,
    m: &mut [u32],
    memory: &mut [u32],
    passes: u32,
    dacs: &[u32],
    frames: &mut [u32],
) -> Answer
    requires { passes * length dacs.now ≤ length frames.old }
    ensures { record { number = refused result.end; done = result.done; taken = result.taken; machine = m.new; memory = memory.new; frames = frames.new } ≡ block_from bench.entry.commands.now dacs.now frames.old (rung bench.entry.text (ordering_in bench.entry) passes m.old memory.old bench.entry.commands.now) }
{
    let mut known = bench.refusal(m, memory);
    let mut here = Stage {
        passes,
        done: 0,
        taken: 0,
        place: 0,
        end: Ok(()),
    };
    while here.passes != 0 {
        let next = step_into(bench, here, known, m, memory, dacs, frames);
        let took = next.taken != here.taken;
        known = ring_steps::next_refusal(bench, m, memory, known, took);
        here = next;
    }
    Answer {
        done: here.done,
        taken: here.taken,
        end: here.end,
    }
}

// The order of a call, where one of no entries is that by number.
fn given(order: &[u32]) -> Option<&[u32]>
    ensures { ordering_of (option_copied result) ≡ ordering_for order.now }
{
    if order.len() != 0 {
        return Some(order);
    }
    None
}

// A block: so many passes, as far as there is room for their frames and no refusal ends them. An order of no entries is that by number.
pub fn ring(
    text: Text,
    m: &mut [u32],
    memory: &mut [u32],
    commands: &[u32],
    order: &[u32],
    passes: u32,
    dacs: &[u32],
    frames: &mut [u32],
) -> Answer
    ensures { record { number = refused result.end; done = result.done; taken = result.taken; machine = m.new; memory = memory.exit.now; frames = frames.new } ≡ block_of text m.old (record { memory = memory.entry.now; commands = commands.now; order = order.now; passes = passes; dacs = dacs.now; frames = frames.old }) }
{
    let fits = fitting(dacs.len(), frames.len(), passes);
    let bench = Bench {
        text,
        commands,
        order: given(order),
        numbers: &Numbers::new(),
        tables: &Tables::new(),
    };
    ring_by(bench, m, memory, fits, dacs, frames)
}
