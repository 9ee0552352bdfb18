// The four points on which two orders of the generators may differ, by the traces of the orders: each answers where it fails first, if it fails.
#![tactic(auto)]

ghost use Rattle.std.specs.Prelude.{◌≡◌, ◌<◌, ◌≤◌, length};
ghost use Rattle.layout.specs.Layout.{generators, quadrant_words, dacs};
ghost use Rattle.layout.specs.Machine.{ticks_of};
ghost use Rattle.base_sequences.specs.Sequences.{first_failing};
ghost use Rattle.pass_order.specs.Order.{IsOrder};
ghost use Rattle.compare_agreement.specs.Agreement.{settings_of};
ghost use Rattle.compare_agreement.specs.Points.{neighbour_point, feeder_point, writer_point, word_point, writers_of};
ghost use Rattle.compare_roles.specs.AsCoded.{RunsOf};
ghost use Rattle.compare_traces.specs.AsCoded.{Traceable, trace_of};
ghost use Rattle.compare_points.specs.AsCoded.{sides, side_by, neighbour_by, same_at, word_marked_by, marks_of, word_by, where_failing};

use compare_roles::Runs;
use compare_traces::Trace;
use layout_texts::Text;

// A mark for each sum word.
type Marks = [u8; layout::QUADRANT_WORDS];

// Two orders of a machine's generators, with what the points look at: the generators' run modes and the traces of the orders. These are
// borrowed: by value they lay on the stack three times, and a thread with 16 kB of it could not compare.
#[derive(Drop)]
pub struct Orders<'a> {
    pub text: Text,
    pub m: &'a [u32],
    pub first: &'a [u32],
    pub second: &'a [u32],
    pub runs: &'a Runs,
    pub first_trace: &'a Trace,
    pub second_trace: &'a Trace,
    pub ghost traceable: { Traceable m.now },
    pub ghost first_order: { IsOrder (ticks_of m.now) first.now },
    pub ghost second_order: { IsOrder (ticks_of m.now) second.now },
    pub ghost runs_of: { RunsOf text m.now runs.now },
    pub ghost first_traced: { first_trace.now ≡ trace_of text m.now first.now },
    pub ghost second_traced: { second_trace.now ≡ trace_of text m.now second.now },
}

// The lowest of n places at which two arrays hold another number.
fn first_difference(first: &[u32], second: &[u32], n: usize) -> Option<usize>
    requires { (n ≤ length first.now) × (n ≤ length second.now) }
    ensures { result ≡ where_failing n (first_failing (same_at first.now second.now) n) }
{
    for i in 0..n {
        if first[i] != second[i] {
            return Some(i);
        }
    }
    None
}

impl<'a> Orders<'a> {
    // Whether g and h stand in the same sequence in both.
    pub fn same_side(&self, g: usize, h: usize) -> bool
        requires { (g < generators) × (h < generators) }
        ensures { result ≡ side_by (sides self.now.first_trace.now self.now.second_trace.now) g h }
    {
        let first = &self.first_trace.place;
        let second = &self.second_trace.place;
        (first[g] < first[h]) == (second[g] < second[h])
    }

    // The first point at generator g.
    fn neighbour_same(&self, g: usize) -> bool
        requires { g < ticks_of self.now.m.now }
        ensures { result ≡ neighbour_by self.now.text self.now.m.now (sides self.now.first_trace.now self.now.second_trace.now) g }
    {
        if compare_roles::run_at(self.text, self.m, self.runs, g) != layout_modes::WAIT {
            return true;
        }
        if !compare_roles::awaits(self.text, self.m, g) {
            return true;
        }
        let distance = layout_texts::distance(self.text);
        self.same_side(g - distance, g)
    }

    // The lowest generator that waits and has a lower neighbour that can trigger on another side.
    pub fn neighbour_point(&self) -> Option<usize>
        ensures { result ≡ where_failing (ticks_of self.now.m.now) (neighbour_point (settings_of self.now.text self.now.m.now) self.now.first.now self.now.second.now) }
    {
        for g in 0..layout::ticks(self.m) {
            if !self.neighbour_same(g) {
                return Some(g);
            }
        }
        None
    }

    // The lowest DAC that is fed last through another GFM.
    pub fn feeder_point(&self) -> Option<usize>
        ensures { result ≡ where_failing dacs (feeder_point (settings_of self.now.text self.now.m.now) self.now.first.now self.now.second.now) }
    {
        first_difference(&self.first_trace.fed, &self.second_trace.fed, layout::DACS)
    }

    // The lowest place at which the GFMs of the written data differ.
    pub fn writer_point(&self) -> Option<usize>
        ensures { result ≡ where_failing (writers_of (settings_of self.now.text self.now.m.now) self.now.first.now self.now.second.now) (writer_point (settings_of self.now.text self.now.m.now) self.now.first.now self.now.second.now) }
    {
        let n = self.first_trace.counts.writes;
        first_difference(&self.first_trace.written, &self.second_trace.written, n)
    }

    // If generator g adds to a word and stands on another side of the word's last 0111 in one order than in the other, the word is marked.
    fn adder(&self, marks: &mut Marks, g: usize)
        requires { g < ticks_of self.now.m.now }
        ensures { marks.new ≡ word_marked_by self.now.text self.now.m.now (sides self.now.first_trace.now self.now.second_trace.now) self.now.first_trace.now.replaced.last g marks.old }
    {
        if !compare_roles::adding(compare_roles::run_at(self.text, self.m, self.runs, g)) {
            return;
        }
        let w = layout::gsum(self.m, g);
        let l = layout::wide(self.first_trace.replaced.last[w]);
        if l == 0 {
            return;
        }
        if self.same_side(l - 1, g) {
            return;
        }
        marks[w] = 1;
    }

    // The words are marked of which an adding generator stands on another side of the last 0111 in one order than in the other.
    fn adders(&self) -> Marks
        ensures { result ≡ marks_of self.now.text self.now.m.now (sides self.now.first_trace.now self.now.second_trace.now) self.now.first_trace.now.replaced.last (ticks_of self.now.m.now) }
    {
        let mut marks = [0u8; layout::QUADRANT_WORDS];
        for g in 0..layout::ticks(self.m) {
            self.adder(&mut marks, g);
        }
        marks
    }

    // The fourth point at word w.
    fn word_same(&self, marks: &Marks, w: usize) -> bool
        requires { w < quadrant_words }
        ensures { result ≡ word_by self.now.first_trace.now.replaced self.now.second_trace.now.replaced marks.now w }
    {
        let first = &self.first_trace.replaced;
        let second = &self.second_trace.replaced;
        (first.last[w] == second.last[w]) & (first.among[w] == second.among[w]) & (marks[w] == 0)
    }

    // The lowest word with a 0111 that has another last one, or at another place among all 0111s, or other adding generators after it.
    pub fn word_point(&self) -> Option<usize>
        ensures { result ≡ where_failing quadrant_words (word_point (settings_of self.now.text self.now.m.now) self.now.first.now self.now.second.now) }
    {
        let marks = self.adders();
        for w in 0..layout::QUADRANT_WORDS {
            if !self.word_same(&marks, w) {
                return Some(w);
            }
        }
        None
    }
}
