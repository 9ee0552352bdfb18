// Two machines joined to one.
#![tactic(auto)]

ghost use Rattle.std.specs.Prelude.{◌≡◌, cond, ◌+◌, ◌≤◌, length, get_or, set};
ghost use Rattle.base_questions.specs.Refusals.{refused};
ghost use Rattle.base_fills.specs.Fills.{filled};
ghost use Rattle.layout.specs.Layout.{generators, t_at, update_ticks_at};
ghost use Rattle.layout.specs.Machine.{Reaches, ticks_of};
ghost use Rattle.join_model.specs.Join.{join_of};
ghost use Rattle.join_questions.specs.AsCoded.{marks_length};
ghost use Rattle.join.specs.AsCoded.{chosen, brought_used, stored};

use base_questions::Refusal;
use join_questions::Uses;

// Copies the first n words of a run into another, from a place on.
fn copy(m: &mut [u32], at: usize, words: &[u32], n: usize)
    requires { (at + n ≤ length m.old) × (n ≤ length words.now) }
    ensures { m.new ≡ filled at 1 n (λ k. get_or words.now k 0) m.old }
{
    // By a loop: copy_from_slice would ask a host without a C library for memmove.
    for k in 0..n {
        m[at + k] = words[k];
    }
}

// The second machine's word where it is used, else the first's.
fn choose(used: bool, word: u32, own: u32) -> u32
    ensures { result ≡ cond used word own }
{
    if used { word } else { own }
}

// Brings over those of n words that are used, to the words from a place on; their marks stand from `first` on.
fn bring(m: &mut [u32], at: usize, words: &[u32], used: &Uses, first: usize, n: usize)
    requires { (at + n ≤ length m.old) × (n ≤ length words.now) × (first + n ≤ marks_length) }
    ensures { m.new ≡ chosen m.old at words.now used.now first n }
{
    for k in 0..n {
        let word = choose(used[first + k], words[k], m[at + k]);
        m[at + k] = word;
    }
}

// Brings over what the second machine uses: its sum words, this and last, and its DAC words.
fn bring_used(m: &mut [u32], second: &[u32], used: &Uses)
    requires { Reaches m.old × Reaches second.now }
    ensures { m.new ≡ brought_used second.now used.now m.old }
{
    let this = &second[layout::GENERATOR_THIS_AT..];
    let last = &second[layout::GENERATOR_LAST_AT..];
    let dacs = &second[layout::DACS_AT..];
    let n = layout::QUADRANT_WORDS;
    bring(m, layout::GENERATOR_THIS_AT, this, used, 0, n);
    bring(m, layout::GENERATOR_LAST_AT, last, used, 0, n);
    bring(
        m,
        layout::DACS_AT,
        dacs,
        used,
        join_questions::DACS_USED_AT,
        layout::DACS,
    );
}

// T and the update ticks.
fn put_ticks(m: &mut [u32], t: u32, count: u32)
    requires { Reaches m.old }
    ensures { m.new ≡ set (set m.old t_at t) update_ticks_at count }
{
    m[layout::T_AT] = t;
    m[layout::UPDATE_TICKS_AT] = count;
}

// Puts the second machine into the first: its generators after the first's T, what it uses, T and the update ticks.
fn store(m: &mut [u32], second: &[u32], used: &Uses)
    requires { Reaches m.old × Reaches second.now × (ticks_of m.old + ticks_of second.now ≤ generators) }
    ensures { m.new ≡ stored m.old second.now used.now }
{
    let first = m[layout::T_AT];
    let other = second[layout::T_AT];
    let t = first + other;
    let n = m[layout::N_AT];
    let count = layout::update_ticks(t, n);
    let at = layout::GENERATOR_WORDS * layout::wide(first) + layout::GO;
    let words = layout::GENERATOR_WORDS * layout::wide(other);
    copy(m, at, second, words);
    bring_used(m, second, used);
    put_ticks(m, t, count);
}

// The first machine becomes the joined one; the second is only read. A refused call leaves the first as it was.
pub fn join(m: &mut [u32], second: &[u32]) -> Result<(), Refusal>
    ensures { record { number = refused result; machine = m.new } ≡ join_of m.old second.now }
{
    join_questions::machines_refusal(m, second)?;
    let used = join_questions::uses(second);
    join_questions::pair_refusal(m, second, &used)?;
    store(m, second, &used);
    Ok(())
}
