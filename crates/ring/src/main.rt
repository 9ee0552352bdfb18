// Program ring: rings the bench file on standard input and prints a line for each pass, or a refusal.
// Without an argument each pass goes by number, with `-` by pitch, with another by the order file of that name.
// A read or a write that fails, and a second argument, end it with a line on standard error.
#![tactic(auto)]

ghost use Rattle.std.specs.Prelude.{◌≡◌, IfOk};
ghost use Rattle.ring_pass.specs.Benches.{ordering_in};
ghost use Rattle.ring_steps.specs.AsCoded.{ringing_at};
ghost use Rattle.ring_steps.specs.declared.Output.TheVariants.{Lines};
ghost use Rattle.ring_gathering.specs.AsCoded.{gathered};

use ring_order::By;
use ring_pass::{Bench, Numbers, Tables};
use ring_steps::{Output, Progress};
use std::io;

// The buffer for lines that are printed together. With the files, the machine, its memory and the tables it has room in a stack of 512 kB.
const OUTPUT_BYTES: usize = 65536;

// Rings as many passes as the buffer has room for, and prints them; answers what is left to ring.
fn ring_part(
    rt: HostRuntime,
    bench: Bench,
    at: Progress,
    m: &mut [u32],
    memory: &mut [u32],
) -> io::Result<Progress>
    ensures { IfOk result (λ next. ringing_at next m.new memory.new bench.entry.commands.now ≡ (gathered bench.entry.text (ordering_in bench.entry) Lines 65536 (ringing_at at m.old memory.old bench.entry.commands.now)).next) }
{
    let mut out = [0u8; OUTPUT_BYTES];
    let next = ring_gathering::gather(bench, Output::Lines, at, m, memory, &mut out);
    rt.write_all(&out[..next.length])?;
    Ok(next)
}

// Rings until no pass is left or a write fails.
fn ring_all(
    rt: HostRuntime,
    bench: Bench,
    start: Progress,
    m: &mut [u32],
    memory: &mut [u32],
) -> io::Result<()> {
    let mut at = start;
    while at.passes != 0 {
        at = ring_part(rt, bench, at, m, memory)?;
    }
    Ok(())
}

// Rings a file from its beginning, or prints what is refused.
fn ring(rt: HostRuntime, file: &[u8], by: By, listing: &[u8]) -> io::Result<()> {
    let mut m = [0u32; layout::MACHINE_LENGTH];
    let mut room = [0u32; file_bench::COMMAND_PLACES];
    let mut memory = [0u32; layout::MEMORY_WORDS];
    let start = match ring_begin::begin(file, by, listing, &mut m, &mut room, &mut memory) {
        Ok(start) => start,
        Err(line) => return rt.write_all(line.bytes()),
    };
    let bench = Bench {
        text: start.text,
        commands: &room[..start.count],
        order: start.order(),
        numbers: &Numbers::new(),
        tables: &Tables::new(),
    };
    ring_all(rt, bench, start.start(), &mut m, &mut memory)
}

fn main(rt: HostRuntime) {
    ring_streams::run(rt, b"ring", |file, by, listing| ring(rt, file, by, listing));
}
