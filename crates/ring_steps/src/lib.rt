// The ringing of a bench file: one step, a pass by number or by an order that is given, and then an update with the commands still left.
#![tactic(auto)]

ghost use Rattle.std.specs.Prelude.{◌≡◌, ◌≢◌, [], ◌∷◌, ◌+◌, ◌≤◌, length, drop};
ghost use Rattle.std.proofs.lemmas.List.Edits.{sets};
ghost use Rattle.base_questions.specs.Questions.{asked};
ghost use Rattle.base_questions.specs.Refusals.{number_of, refused};
ghost use Rattle.machine.specs.Questions.{question1, question2};
ghost use Rattle.ring_pass.specs.BenchPass.{passed};
ghost use Rattle.ring_pass.specs.Benches.{ordering_in};
ghost use Rattle.ring_steps.specs.Heard.{update_after};
ghost use Rattle.ring_steps.specs.AsCoded.{taken_after, Lined, Known, given_after, given_refused, ringing_at, step_of, commands_taken};

use base_questions::Refusal;
use command_update::Taken;
use file_printed::LINE_BYTES;
use layout_texts::Text;
use ring_pass::Bench;

// What a ringing gives out: lines of file, or frames of sound.
#[derive(Clone, Copy)]
pub enum Output {
    Lines,
    Frames,
}

// How far a ringing is: the passes left, the commands taken so far, the length of what the last step gave out, and the refusal that ended it, if one did.
#[derive(Clone, Copy)]
pub struct Progress {
    pub passes: u32,
    pub taken: usize,
    pub length: usize,
    pub end: Result<(), Refusal>,
}

// Where the commands still left begin, at most at their end.
fn start_of(commands: &[u32], from: usize) -> usize
    ensures { (result ≤ length commands.now) × (drop result commands.now ≡ drop from commands.now) }
{
    from.min(commands.len())
}

// What follows a pass, of a machine that passes questions 1 and 2, with the commands from a place on.
fn ring_update(bench: Bench, m: &mut [u32], from: usize) -> Taken
    requires { asked (question1 m.old ∷ question2 bench.text m.old ∷ []) ≡ 0 }
    ensures value { result.count ≡ taken_after bench.entry.text m.old (drop from bench.entry.commands.now) }
    ensures commands_after { record { number = refused result.end; machine = m.new; rest = drop (from + result.count) bench.entry.commands.now } ≡ update_after bench.entry.text m.old (drop from bench.entry.commands.now) }
{
    let start = start_of(bench.commands, from);
    match bench.text {
        Text::Of1978 => command_update::take_commands(m, &bench.commands[start..]),
        Text::Old => Taken {
            count: 0,
            end: Ok(()),
        },
    }
}

// What is given out of a machine. Answers its length.
fn put_machine(output: Output, m: &[u32], line: &mut [u8; LINE_BYTES]) -> usize
    requires { Lined m.now }
    ensures value { result ≡ length (given_after output m.now) }
    ensures line_after { line.new ≡ sets line.old 0 (given_after output m.now) }
{
    let counter = m[layout::COUNTER_AT];
    let left = m[layout::DACS_AT];
    let right = m[layout::DACS_AT + 1];
    match output {
        Output::Lines => file_printed::pass_line(line, counter, left, right),
        Output::Frames => file_wave::put_frame(line, left, right),
    }
}

// What is given out of a refusal. Answers its length.
fn put_refusal(output: Output, refusal: Refusal, line: &mut [u8; LINE_BYTES]) -> usize
    ensures value { result ≡ length (given_refused output (number_of refusal)) }
    ensures line_after { line.new ≡ sets line.old 0 (given_refused output (number_of refusal)) }
{
    match output {
        Output::Lines => file_printed::refusal_line(line, u32::from(refusal)),
        Output::Frames => 0,
    }
}

// What is given out of a refusal, and that it ends a ringing: no pass is left.
fn ended(output: Output, refusal: Refusal, taken: usize, line: &mut [u8; LINE_BYTES]) -> Progress
    ensures value { result ≡ record { passes = 0; taken = taken; length = length (given_refused output (number_of refusal)); end = Err refusal } }
    ensures line_after { line.new ≡ sets line.old 0 (given_refused output (number_of refusal)) }
{
    let length = put_refusal(output, refusal, line);
    Progress {
        passes: 0,
        taken,
        length,
        end: Err(refusal),
    }
}

// One step: a pass and an update, and what is given out of both or of a refusal, after which no pass is left. A pass is left, and which question refuses it is known.
pub fn step(
    bench: Bench,
    output: Output,
    at: Progress,
    known: Result<(), Refusal>,
    m: &mut [u32],
    memory: &mut [u32],
    line: &mut [u8; LINE_BYTES],
) -> Progress
    requires passes_nonzero { at.passes ≢ 0 }
    requires number_value { refused known ≡ (passed bench.text (ordering_in bench) m.old memory.old).number }
    ensures length_value { result.length ≡ length (step_of bench.entry.text (ordering_in bench.entry) output (ringing_at at m.old memory.old bench.entry.commands.now)).bytes }
    ensures line_after { line.new ≡ sets line.old 0 (step_of bench.entry.text (ordering_in bench.entry) output (ringing_at at m.old memory.old bench.entry.commands.now)).bytes }
    ensures commands_after { ringing_at result m.new memory.new bench.entry.commands.now ≡ (step_of bench.entry.text (ordering_in bench.entry) output (ringing_at at m.old memory.old bench.entry.commands.now)).next }
    ensures taken_value { result.taken ≡ at.taken + commands_taken (ringing_at at m.old memory.old bench.entry.commands.now) (step_of bench.entry.text (ordering_in bench.entry) output (ringing_at at m.old memory.old bench.entry.commands.now)) }
{
    if let Err(refusal) = known {
        return ended(output, refusal, at.taken, line);
    }
    bench.run(m, memory);
    let update = ring_update(bench, m, at.taken);
    let taken = at.taken + update.count;
    if let Err(refused) = update.end {
        return ended(output, refused, taken, line);
    }
    let length = put_machine(output, m, line);
    Progress {
        passes: at.passes - 1,
        taken,
        length,
        end: Ok(()),
    }
}

// Which question refuses the next pass: it is asked again only where the step took commands, since a pass and an update without commands keep the answers. Delay memory is not looked at.
pub fn next_refusal(
    bench: Bench,
    m: &[u32],
    memory: &[u32],
    known: Result<(), Refusal>,
    took: bool,
) -> Result<(), Refusal>
    requires { Known bench.text (ordering_in bench) m.now memory.now (refused known) took }
    ensures { refused result ≡ (passed bench.entry.text (ordering_in bench.entry) m.now memory.now).number }
{
    if took {
        return bench.refusal_again(m);
    }
    known
}
