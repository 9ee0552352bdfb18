// What an order of the generators leaves for the four points to look at, in arrays.
#![tactic(auto)]

ghost use Rattle.std.specs.Prelude.{◌≡◌, ◌<◌};
ghost use Rattle.layout.specs.Layout.{generators};
ghost use Rattle.layout.specs.Machine.{ticks_of};
ghost use Rattle.pass_order.specs.Order.{IsOrder};
ghost use Rattle.compare_roles.specs.AsCoded.{RunsOf};
ghost use Rattle.compare_traces.specs.AsCoded.{Traceable, untraced, replaced_by, trace_step, trace_of};

use compare_roles::Runs;
use layout_texts::Text;
use pass_order::Counts;

// The last 0111 of each sum word in an order. Of a word without one both numbers are 0: an Option of a number and a place would make the
// points' test of two words, two comparisons without a branch, a match.
#[derive(Clone, Copy)]
pub struct Replaced {
    // One more than its number.
    pub last: [u32; layout::QUADRANT_WORDS],
    // Its place among all 0111s.
    pub among: [u32; layout::QUADRANT_WORDS],
}

impl Replaced {
    // Generator g is its word's last yet, and n 0111s stand before it.
    fn replace(&mut self, m: &[u32], n: usize, g: usize)
        requires traceable { Traceable m.now }
        requires g_lt_generators { (g < generators) × (n < generators) }
        ensures { self.new ≡ replaced_by m.now g n self.old }
    {
        let w = layout::gsum(m, g);
        self.last[w] = (g + 1) as u32;
        self.among[w] = n as u32;
    }
}

// What an order leaves.
#[derive(Clone, Copy)]
pub struct Trace {
    // Of each generator its place.
    pub place: [u8; layout::GENERATORS],
    // Of each DAC the source of its last feeder, 0 where there is none.
    pub fed: [u32; layout::DACS],
    // The sources of the written data, in order.
    pub written: [u32; layout::GENERATORS],
    pub replaced: Replaced,
    // How many generators have read and written data.
    pub counts: Counts,
}

impl Trace {
    // Of no entries.
    pub fn new() -> Trace
        ensures { result ≡ untraced }
    {
        Trace {
            place: [0; layout::GENERATORS],
            fed: [0; layout::DACS],
            written: [0; layout::GENERATORS],
            replaced: Replaced {
                last: [0; layout::QUADRANT_WORDS],
                among: [0; layout::QUADRANT_WORDS],
            },
            counts: Counts {
                reads: 0,
                writes: 0,
            },
        }
    }

    // Generator g at place i of an order.
    fn step(&mut self, text: Text, m: &[u32], runs: &Runs, i: usize, g: usize)
        requires traceable { Traceable m.now }
        requires runs_of { RunsOf text m.now runs.now × (g < ticks_of m.now) }
        requires i_lt_generators { (i < generators) × (self.old.counts.reads < generators) × (self.old.counts.writes < generators) }
        ensures { self.new ≡ trace_step text m.now i g self.old }
    {
        self.place[g] = i as u8;
        match compare_roles::run_at(text, m, runs, g) {
            layout_modes::WRITE_DAC => {
                let d = layout_texts::dac_number(text, m, g);
                self.fed[d] = layout_texts::source(text, m, g);
            }
            layout_modes::WRITE_DATA => {
                let n = self.counts.writes;
                self.written[n] = layout_texts::source(text, m, g);
                self.counts.writes += 1;
            }
            layout_modes::READ_DATA => {
                self.replaced.replace(m, self.counts.reads, g);
                self.counts.reads += 1;
            }
            _ => {}
        }
    }

    // From no entries to an order, in place: a trace that is handed over is copied, 1.9 kB of it.
    pub fn follow(&mut self, text: Text, m: &[u32], runs: &Runs, order: &[u32])
        requires traceable { Traceable m.now × RunsOf text m.now runs.now }
        requires order { IsOrder (ticks_of m.now) order.now }
        requires untraced { self.old ≡ untraced }
        ensures { self.new ≡ trace_of text m.now order.now }
    {
        for (i, entry) in order.iter().enumerate() {
            self.step(text, m, runs, i, layout::wide(*entry));
        }
    }

    // Of an order.
    pub fn of(text: Text, m: &[u32], runs: &Runs, order: &[u32]) -> Trace
        requires traceable { Traceable m.now × RunsOf text m.now runs.now }
        requires order { IsOrder (ticks_of m.now) order.now }
        ensures { result ≡ trace_of text m.now order.now }
    {
        let mut trace = Trace::new();
        trace.follow(text, m, runs, order);
        trace
    }
}
