// Questions 10, 11 and 12 of a pass: delay memory, the lines that run, and the units that modifiers name.
#![tactic(auto)]

ghost use Rattle.std.specs.Prelude.{◌≡◌, [], ◌∷◌, ◌/◌, ◌≤◌, ◌<◌};
ghost use Rattle.layout.specs.Machine.{Reaches, ticks_of};
ghost use Rattle.base_questions.specs.Questions.{asked};
ghost use Rattle.base_questions.specs.Refusals.{refused};
ghost use Rattle.delay.specs.Delay.{Ranged};
ghost use Rattle.delay_questions.specs.Questions.{memory_good, invokes, named_by, delay_of, fits, good_line, lines_good, named_once, question11, question12};
ghost use Rattle.delay_questions.specs.AsCoded.{ored, unmarked, unit_marked};

use base_questions::Refusal;
use delay::Delay;
use std::mem;

// The or of all words of delay memory.
#[tactic(auto, unfolding(crate::specs::AsCoded::ored))]
fn ored(memory: &[u32]) -> u32
    ensures { result ≡ ored memory.now }
{
    memory.iter().fold(0, |x, w| x | w)
}

// Question 10. 2 ^ 20 is a power of two, so that the or of the words tells of them all.
pub fn memory_good(memory: &[u32]) -> bool
    ensures { result ≡ memory_good memory.now }
{
    memory.len() == layout::MEMORY_WORDS && ored(memory) < layout::WORD_LIMIT
}

// How many modifiers a pass takes.
fn modifiers(m: &[u32]) -> usize
    requires { Reaches m.now }
    ensures { result ≡ ticks_of m.now / 2 }
{
    layout::ticks(m) / 2
}

// Whether modifier k invokes a delay unit.
pub fn invokes(m: &[u32], k: usize) -> bool
    requires reaches { Reaches m.now }
    requires k_bound { k < 128 }
    ensures { result ≡ invokes m.now k }
{
    m[layout::MODIFIERS_AT + layout::MODIFIER_WORDS * k + layout::MMODE] / 16 == 0b00111
}

// The delay unit that modifier k names.
pub fn named_by(m: &[u32], k: usize) -> usize
    requires reaches { Reaches m.now }
    requires k_bound { k < 128 }
    ensures { result ≡ named_by m.now k }
{
    layout::wide(m[layout::MODIFIERS_AT + layout::MODIFIER_WORDS * k + layout::MRM] % 32)
}

// Delay unit u of the machine.
pub fn delay_at(m: &[u32], u: usize) -> Delay
    requires reaches { Reaches m.now }
    requires u_bound { u < 32 }
    ensures { result ≡ delay_of m.now u }
{
    let at = layout::DELAYS_AT + layout::DELAY_WORDS * u;
    Delay::load(&m[at..])
}

// A line that fits in delay memory, with Y at most Z.
fn fits(d: Delay) -> bool
    requires { Ranged d }
    ensures { result ≡ fits d }
{
    layout::wide(d.x + d.z) < layout::MEMORY_WORDS && d.y <= d.z
}

// Question 11 of modifier k.
#[tactic(auto, unfolding(crate::specs::Questions::good_line))]
fn good_line(m: &[u32], k: usize) -> bool
    requires reaches { Reaches m.now }
    requires k_bound { k < 128 }
    ensures { result ≡ good_line m.now k }
{
    if !invokes(m, k) {
        return true;
    }
    let u = named_by(m, k);
    let d = delay_at(m, u);
    d.p != delay::LINE || !d.runs(layout::ticks(m), u) || fits(d)
}

// Question 11.
fn lines_good(m: &[u32]) -> bool
    requires reaches { Reaches m.now }
    requires m_bound { ticks_of m.now ≤ 256 }
    ensures { result ≡ lines_good m.now }
{
    for k in 0..modifiers(m) {
        if !good_line(m, k) {
            return false;
        }
    }
    true
}

// Marks the unit that modifier k invokes; whether it had no mark, or there is none.
#[tactic(auto, unfolding(crate::specs::AsCoded::unmarked, crate::specs::AsCoded::unit_marked))]
fn mark(m: &[u32], marks: &mut [bool; layout::DELAYS], k: usize) -> bool
    requires reaches { Reaches m.now }
    requires k_bound { k < 128 }
    ensures value { result ≡ unmarked m.now marks.old k }
    ensures marks_after { marks.new ≡ unit_marked m.now marks.old k }
{
    if !invokes(m, k) {
        return true;
    }
    !mem::replace(&mut marks[named_by(m, k)], true)
}

// Question 12.
fn named_once(m: &[u32]) -> bool
    requires reaches { Reaches m.now }
    requires m_bound { ticks_of m.now ≤ 256 }
    ensures { result ≡ named_once m.now }
{
    let mut marks = [false; layout::DELAYS];
    for k in 0..modifiers(m) {
        if !mark(m, &mut marks, k) {
            return false;
        }
    }
    true
}

// The first of questions 11 and 12 that is answered no, if one is.
#[tactic(auto, unfolding(base_questions::specs::Questions::asked))]
pub fn delay_refusal(m: &[u32]) -> Result<(), Refusal>
    requires reaches { Reaches m.now }
    requires m_bound { ticks_of m.now ≤ 256 }
    ensures { refused result ≡ asked (question11 m.now ∷ question12 m.now ∷ []) }
{
    if !lines_good(m) {
        return Err(Refusal::DelayLines);
    }
    if !named_once(m) {
        return Err(Refusal::DelayUnits);
    }
    Ok(())
}
