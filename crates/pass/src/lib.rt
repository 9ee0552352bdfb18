// A pass by an order of the generators.
#![tactic(auto)]

ghost use Rattle.std.specs.Prelude.{◌≡◌, ◌≤◌};
ghost use Rattle.layout.specs.Machine.{Reaches, ticks_of};
ghost use Rattle.base_questions.specs.Questions.{asked};
ghost use Rattle.base_questions.specs.Refusals.{refused};
ghost use Rattle.pass_model.specs.Pass.{counted, unit_questions, ran, pass_refusal, pass_of};
ghost use Rattle.pass_generators.specs.AsCoded.{Ready, Numbers};
ghost use Rattle.pass.specs.Answers.{outcome_of};

use base_questions::Refusal;
use generator::Tables;
use layout_texts::Text;
use pass_order::Counts;
use pass_outputs::Taking;
use pass_sums::Clipped;

// What a pass answers that no question refuses: how many items it read and wrote, and a mark for each word of generator-this that left its range.
#[derive(Clone, Copy)]
pub struct Passed {
    pub read: usize,
    pub written: usize,
    pub clipped: Clipped,
}

// 1 is added to the counter.
fn count(m: &mut [u32])
    requires { Reaches m.old }
    ensures { m.new ≡ counted m.old }
{
    let at = layout::COUNTER_AT;
    m[at] = layout::next_pass(m[at]);
}

// The pass itself: generators in the order, modifiers by number with their delay units, the end of sum memory, the counter.
pub fn run(
    text: Text,
    tables: &Tables,
    m: &mut [u32],
    order: &[u32],
    items: &[u32],
    places: &mut [u32],
    memory: &mut [u32],
) -> Passed
    requires ready { Ready m.old }
    requires numbers { Numbers order.now }
    requires m_bound { ticks_of m.old ≤ 256 }
    ensures { outcome_of (Ok result) m.new places.new memory.new ≡ ran text m.old (record { order = order.entry.now; items = items.now; places = places.old; memory = memory.old }) }
{
    let t = layout::ticks(m);
    // Written out: handed through a function, sum memory was copied twice more in each pass.
    let mut taking = Taking {
        sums: pass_sums::load(m),
        clipped: [0; layout::QUADRANT_WORDS],
        triggered: [false; layout::GENERATORS],
        done: Counts {
            reads: 0,
            writes: 0,
        },
    };
    pass_generators::generators(text, tables, m, &mut taking, order, items, places);
    pass_modifiers::modifiers(text, m, &mut taking.sums, memory, t, t / 2);
    pass_sums::close(m, &taking.sums);
    count(m);
    Passed {
        read: taking.done.reads,
        written: taking.done.writes,
        clipped: taking.clipped,
    }
}

// The first of a text's questions about the delay units that is answered no, if one is.
pub fn unit_refusal(text: Text, m: &[u32]) -> Result<(), Refusal>
    requires { Reaches m.now × (ticks_of m.now ≤ 256) }
    ensures { refused result ≡ asked (unit_questions text m.now) }
{
    match text {
        Text::Of1978 => delay_questions::delay_refusal(m),
        Text::Old => Ok(()),
    }
}

// The first question of a pass that is answered no, if one is.
fn refusal(
    text: Text,
    m: &[u32],
    order: &[u32],
    items: &[u32],
    places: &[u32],
    memory: &[u32],
) -> Result<(), Refusal>
    ensures { refused result ≡ pass_refusal text m.now (record { order = order.entry.now; items = items.now; places = places.now; memory = memory.now }) }
{
    machine::refusal(text, m)?;
    pass_order::order_refusal(order, layout::ticks(m))?;
    let needed = pass_order::in_modes(text, m);
    if items.len() < needed.reads {
        return Err(Refusal::ReadItems);
    }
    if places.len() < needed.writes {
        return Err(Refusal::WrittenPlaces);
    }
    if !delay_questions::memory_good(memory) {
        return Err(Refusal::DelayMemory);
    }
    unit_refusal(text, m)
}

// A pass. A refusal leaves the machine, the written places and delay memory as they were.
pub fn pass(
    text: Text,
    m: &mut [u32],
    order: &[u32],
    items: &[u32],
    places: &mut [u32],
    memory: &mut [u32],
) -> Result<Passed, Refusal>
    ensures { outcome_of result m.new places.new memory.new ≡ pass_of text m.old (record { order = order.entry.now; items = items.now; places = places.old; memory = memory.old }) }
{
    refusal(text, m, order, items, places, memory)?;
    let tables = Tables::new();
    let passed = run(text, &tables, m, order, items, places, memory);
    Ok(passed)
}
