// An order of the generators, questions 5 and 6, and how many generators read and write data.
#![tactic(auto)]

ghost use Rattle.std.specs.Prelude.{◌≡◌, [], ◌∷◌, ◌≤◌, length};
ghost use Rattle.layout.specs.Layout.{generators};
ghost use Rattle.layout.specs.Machine.{Reaches, ticks_of};
ghost use Rattle.base_questions.specs.Questions.{asked};
ghost use Rattle.base_questions.specs.Refusals.{refused};
ghost use Rattle.layout_modes.specs.Modes.{read_data, write_data};
ghost use Rattle.pass_order.specs.Order.{question5, question6, each_once, in_mode};
ghost use Rattle.pass_order.specs.AsCoded.{unmarked, number_marked};

use base_questions::Refusal;
use layout_texts::Text;

// How many items are read, and how many are written.
#[derive(Clone, Copy, PartialEq, Eq, Debug)]
pub struct Counts {
    pub reads: usize,
    pub writes: usize,
}

// Marks a number; whether it is below t and had no mark.
fn mark(marks: &mut [bool; layout::GENERATORS], t: usize, entry: u32) -> bool
    requires { t ≤ generators }
    ensures value { result ≡ unmarked t marks.old entry }
    ensures marks_after { marks.new ≡ number_marked t marks.old entry }
{
    let g = entry as usize;
    if t <= g {
        return false;
    }
    if marks[g] {
        return false;
    }
    marks[g] = true;
    true
}

// Question 6: each number below t is there once.
pub fn each_once(order: &[u32], t: usize) -> bool
    requires { (t ≤ generators) × (length order.now ≡ t) }
    ensures { result ≡ each_once t order.now }
{
    let mut marks = [false; layout::GENERATORS];
    for entry in order {
        if !mark(&mut marks, t, *entry) {
            return false;
        }
    }
    true
}

// The first of questions 5 and 6 that is answered no, if one is.
pub fn order_refusal(order: &[u32], t: usize) -> Result<(), Refusal>
    requires { t ≤ generators }
    ensures { refused result ≡ asked (question5 t order.now ∷ question6 t order.now ∷ []) }
{
    if order.len() != t {
        return Err(Refusal::OrderLength);
    }
    if !each_once(order, t) {
        return Err(Refusal::OrderNumbers);
    }
    Ok(())
}

// How many generators below T are in 0111, and how many in 0011.
pub fn in_modes(text: Text, m: &[u32]) -> Counts
    requires { Reaches m.now × (ticks_of m.now ≤ generators) }
    ensures { (result.reads ≡ in_mode text m.now read_data) × (result.writes ≡ in_mode text m.now write_data) }
{
    let mut reads = 0;
    let mut writes = 0;
    for g in 0..layout::ticks(m) {
        let run = layout_texts::run_mode(text, m, g);
        reads += usize::from(run == layout_modes::READ_DATA);
        writes += usize::from(run == layout_modes::WRITE_DATA);
    }
    Counts { reads, writes }
}
