// The questions that two machines are asked before they are joined: what each uses, and whether both fit into one.
#![tactic(auto)]

ghost use Rattle.std.specs.Prelude.{◌≡◌, ◌&&◌, [], ◌∷◌, ◌+◌, ◌≤◌, ◌<◌, ltb};
ghost use Rattle.layout.specs.Layout.{generators, quadrant_words, dacs, modifier_at, modifier_words, MMODE};
ghost use Rattle.machine_sweep.specs.AsCoded.{every_word};
ghost use Rattle.base_questions.specs.Questions.{asked};
ghost use Rattle.base_questions.specs.Refusals.{refused};
ghost use Rattle.machine.specs.Questions.{question1, question2};
ghost use Rattle.layout_texts.specs.declared.Text.TheVariants.{Of1978};
ghost use Rattle.join_model.specs.Join.{own_generator, own_generators, self_contained, awaits_neighbour, question16, question17, question18};
ghost use Rattle.join_questions.specs.AsCoded.{Usable, dacs_used_at, marks_length, uses_marked, marks_of, marks_apart};

use base_questions::Refusal;
use layout_texts::Text;

// The marks of what a machine uses: of the words that a GSUM or GFM can name, and, from DACS_USED_AT on, of the DACs.
pub const DACS_USED_AT: usize = 128;

pub type Uses = [bool; 144];

// Marks what generator g uses: the words of its GSUM and GFM, and in 0010 its DAC.
fn mark(m: &[u32], used: &mut Uses, g: usize)
    requires usable { Usable m.now }
    requires g_lt_generators { g < generators }
    ensures { used.new ≡ uses_marked m.now used.old g }
{
    let run = layout_texts::run_mode(Text::Of1978, m, g);
    let sum = layout::gsum(m, g);
    let input = layout::wide(layout::gfm(m, g));
    let dac = layout_texts::dac_number(Text::Of1978, m, g);
    used[sum] = true;
    used[input] = true;
    if run == layout_modes::WRITE_DAC {
        used[DACS_USED_AT + dac] = true;
    }
}

// What a machine uses.
pub fn uses(m: &[u32]) -> Uses
    requires { Usable m.now }
    ensures { result ≡ marks_of m.now }
{
    let t = layout::ticks(m);
    let mut used = [false; 144];
    for g in 0..t {
        mark(m, &mut used, g);
    }
    used
}

// Whether none of n marks from a place on stands in both.
fn apart(first: &Uses, second: &Uses, at: usize, n: usize) -> bool
    requires { at + n ≤ marks_length }
    ensures { result ≡ marks_apart first.now second.now at n }
{
    let mut ok = true;
    for k in 0..n {
        ok = !(first[at + k] & second[at + k]) & ok;
    }
    ok
}

// Whether generator g is no reader and no writer and has no GFM of the modifier quadrant.
fn own_generator(m: &[u32], g: usize) -> bool
    requires usable { Usable m.now }
    requires g_lt_generators { g < generators }
    ensures { result ≡ own_generator m.now g }
{
    let run = layout_texts::run_mode(Text::Of1978, m, g);
    let input = layout::gfm(m, g);
    (run != layout_modes::READ_DATA) & ((run != layout_modes::WRITE_DATA) & (input < 64))
}

// Whether all generators below T are so.
fn own_generators(m: &[u32]) -> bool
    requires { Usable m.now }
    ensures { result ≡ own_generators m.now }
{
    let below = layout::ticks(m);
    let mut ok = true;
    for g in 0..below {
        ok = own_generator(m, g) & ok;
    }
    ok
}

// Whether no modifier is active: function 00000 leaves the four bits of AA and BB.
fn idle_modifiers(m: &[u32]) -> bool
    requires { Usable m.now }
    ensures { result ≡ every_word (λ x. ltb x 16) m.now (modifier_at 0 + MMODE) modifier_words 0 128 }
{
    let at = layout::MODIFIERS_AT + layout::MMODE;
    machine_sweep::words_below(m, at, layout::MODIFIER_WORDS, layout::MODIFIERS, 16)
}

// Whether a machine sounds by its generators alone.
fn self_contained(m: &[u32]) -> bool
    requires { Usable m.now }
    ensures { result ≡ self_contained m.now }
{
    own_generators(m) & idle_modifiers(m)
}

// Whether generator 0 waits for its lower neighbour, or can come to wait.
fn awaits_neighbour(m: &[u32]) -> bool
    requires { Usable m.now }
    ensures { result ≡ awaits_neighbour m.now }
{
    let run = layout_texts::run_mode(Text::Of1978, m, 0);
    (run == layout_modes::WAIT) | (run == layout_modes::RUNNING_C)
}

// Question 16: the sum of both T is at most 256.
fn room(m: &[u32], second: &[u32]) -> bool
    requires { Usable m.now × Usable second.now }
    ensures { result ≡ (question16 m.now second.now).yes }
{
    layout::ticks(m) + layout::ticks(second) <= layout::GENERATORS
}

// Question 17: both sound by their generators alone, and the second's generator 0 waits for no neighbour.
fn may_join(m: &[u32], second: &[u32]) -> bool
    requires { Usable m.now × Usable second.now }
    ensures { result ≡ (question17 m.now second.now).yes }
{
    self_contained(m) & (self_contained(second) & !awaits_neighbour(second))
}

// Question 18: no sum word and no DAC is used by both.
fn nothing_shared(first: &Uses, second: &Uses) -> bool
    ensures { result ≡ (marks_apart first.now second.now 0 quadrant_words && marks_apart first.now second.now dacs_used_at dacs) }
{
    apart(first, second, 0, layout::QUADRANT_WORDS)
        & apart(first, second, DACS_USED_AT, layout::DACS)
}

// The first of questions 1 and 2 of both machines that is answered no, if one is.
pub fn machines_refusal(m: &[u32], second: &[u32]) -> Result<(), Refusal>
    ensures { refused result ≡ asked (question1 m.now ∷ question2 Of1978 m.now ∷ question1 second.now ∷ question2 Of1978 second.now ∷ []) }
{
    machine::refusal(Text::Of1978, m)?;
    machine::refusal(Text::Of1978, second)
}

// The first of questions 16, 17 and 18 that is answered no, if one is, by what the second machine uses.
pub fn pair_refusal(m: &[u32], second: &[u32], brought: &Uses) -> Result<(), Refusal>
    requires usable { Usable m.now × Usable second.now }
    requires brought_value { brought.now ≡ marks_of second.now }
    ensures { refused result ≡ asked (question16 m.now second.now ∷ question17 m.now second.now ∷ question18 m.now second.now ∷ []) }
{
    let own = uses(m);
    let fits = room(m, second);
    let joins = may_join(m, second);
    let apart = nothing_shared(&own, brought);
    if !fits {
        return Err(Refusal::JoinedTicks);
    }
    if !joins {
        return Err(Refusal::JoinedAlone);
    }
    if !apart {
        return Err(Refusal::JoinedApart);
    }
    Ok(())
}
