// What a generator's turn brings beside its registers: P in sum memory, whether the sum left its range, items read and written, a DAC, a trigger.
#![tactic(auto)]

ghost use Rattle.std.specs.Prelude.{◌≡◌, ◌+◌, ◌<◌, ◌^◌};
ghost use Rattle.layout.specs.Machine.{Reaches};
ghost use Rattle.layout_modes.specs.Modes.{is_adds};
ghost use Rattle.generator.specs.Generator.{Ranged};
ghost use Rattle.layout_texts.specs.Texts.{distance_of};
ghost use Rattle.generator_turn.specs.AsCoded.{run_of};
ghost use Rattle.pass_model.specs.Generators.{triggered_below};
ghost use Rattle.pass_outputs.specs.AsCoded.{untaken, triggering, marking, adding, replacing, heard, sent};

use generator::Generator;
use layout_modes::Output;
use layout_texts::Text;
use pass_order::Counts;
use pass_sums::{Clipped, Sums};

// Whether each generator was taken and triggered.
pub type Triggered = [bool; layout::GENERATORS];

// What the generators of a pass change beside the machine's words and the written places: sum memory, the marks of its words that left their range, who has triggered, and how many items were read and written.
#[derive(Drop)]
pub struct Taking {
    pub sums: Sums,
    pub clipped: Clipped,
    pub triggered: Triggered,
    pub done: Counts,
}

impl Taking {
    // As a pass begins, with the marks that there are: nothing has triggered, been read or written.
    pub fn new(sums: Sums, clipped: Clipped) -> Taking
        ensures { result ≡ untaken sums clipped }
    {
        Taking {
            sums,
            clipped,
            triggered: [false; layout::GENERATORS],
            done: Counts {
                reads: 0,
                writes: 0,
            },
        }
    }

    // Begins again, with the sums and marks that there are: nothing has triggered, been read or written.
    pub fn begin(&mut self)
        ensures { self.new ≡ untaken self.old.sums self.old.clipped }
    {
        self.triggered = [false; layout::GENERATORS];
        self.done = Counts {
            reads: 0,
            writes: 0,
        };
    }

    // Whether the lower neighbour of g has triggered.
    pub fn triggered_below(&self, text: Text, g: usize) -> bool
        requires { g < 256 }
        ensures { result ≡ triggered_below (distance_of text) self.now.triggered g }
    {
        let distance = layout_texts::distance(text);
        if g < distance {
            return false;
        }
        self.triggered[g - distance]
    }

    // Generator g is marked where it triggers.
    pub fn mark(&mut self, g: usize, triggers: bool)
        requires { g < 256 }
        ensures { self.new ≡ triggering self.old g triggers }
    {
        if triggers {
            self.triggered[g] = true;
            return;
        }
    }

    // The mark of word gsum is set where a sum in it left its range, else it stays.
    fn mark_left(&mut self, gsum: u32, left: bool)
        requires { gsum < 2 ^ 6 }
        ensures { self.new ≡ marking self.old gsum left }
    {
        let i = (gsum % 64) as usize;
        if left {
            self.clipped[i] = 1;
            return;
        }
    }

    // P is added into a word of sum memory.
    fn add(&mut self, gsum: u32, p: u32)
        requires { (gsum < 2 ^ 6) × (p < 2 ^ 20) }
        ensures { self.new ≡ adding self.old gsum p }
    {
        let added = pass_sums::add(&mut self.sums, gsum, p);
        self.mark_left(gsum, added);
    }

    // P replaces a word together with the next read item.
    fn replace(&mut self, items: &[u32], gsum: u32, p: u32)
        requires { (gsum < 2 ^ 6) × (p < 2 ^ 20) × (self.old.done.reads < 256) }
        ensures { self.new ≡ replacing self.old items.now gsum p }
    {
        let item = base_guarded::word_at(items, self.done.reads) % layout::WORD_LIMIT;
        pass_sums::replace(&mut self.sums, gsum, base_words::add::<20>(p, item));
        let replaced = base_words::leaves_range::<20>(p, item);
        self.mark_left(gsum, replaced);
        self.done.reads += 1;
    }

    // P goes into sum memory: where the output adds it is added, else it replaces a word together with the next read item. The word is marked where the signed sum left its range.
    pub fn add_output(&mut self, items: &[u32], output: Output, gsum: u32, p: u32)
        requires { (gsum < 2 ^ 6) × (p < 2 ^ 20) × (self.old.done.reads < 256) }
        ensures { self.new ≡ heard self.old items.now (is_adds output) gsum p }
    {
        match output {
            Output::Adds => self.add(gsum, p),
            _ => self.replace(items, gsum, p),
        }
    }

    // A generator with nothing on is taken, by its run mode: 0010 feeds its DAC, 0011 writes an item.
    pub fn send(
        &mut self,
        text: Text,
        m: &mut [u32],
        places: &mut [u32],
        run: u32,
        unit: Generator,
        f: u32,
    )
        requires reaches { Reaches m.old }
        requires ranged { Ranged unit }
        requires run_value { (run ≡ run_of text unit) × (f < 2 ^ 20) × (self.old.done.writes < 256) }
        ensures { record { words = m.new; places = places.new; taking = self.new } ≡ sent text (record { words = m.old; places = places.old; taking = self.old }) unit f }
    {
        if run == layout_modes::WRITE_DAC {
            let at = layout::DACS_AT + layout::wide(generator_turn::dac(text, unit));
            m[at] = generator_turn::sends(text, unit, f);
            return;
        }
        if run == layout_modes::WRITE_DATA {
            base_guarded::put(
                places,
                self.done.writes,
                generator_turn::sends(text, unit, f),
            );
            self.done.writes += 1;
            return;
        }
    }
}
