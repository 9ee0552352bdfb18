// Modifier-this as a modifier sees it: what it reads there, its turn by that, and its write.
#![tactic(auto)]

ghost use Rattle.std.specs.Prelude.{◌≡◌, [], ◌<◌, ◌^◌, get_or, set};
ghost use Rattle.base_words.specs.Words.{Word};
ghost use Rattle.modifier.specs.Modifier.{Ranged};
ghost use Rattle.pass_sums.specs.Sums.{modifier_this};
ghost use Rattle.pass_model.specs.Modifiers.{with_write, modifier_turn, modifier_reads_late, seen};
ghost use Rattle.pass_views.specs.AsCoded.{turn_with_b, word_left, unwritten, caught_up};

use layout_texts::Text;
use modifier::{Modifier, Turned};
use pass_sums::{Quadrant, Sums};

// A modifier's write: its MSUM, and the word that it left in modifier-this.
#[derive(Clone, Copy, PartialEq, Eq)]
pub struct Written {
    pub msum: u32,
    pub left: u32,
}

// The early view of modifier-this, and the last four writes, that of modifier k in slot k mod 4.
#[derive(Drop)]
pub struct Lag {
    pub early: Quadrant,
    pub writes: [Written; 4],
}

impl Lag {
    // As the stage begins, by modifier-this: four writes that change nothing, word 0 as it is.
    #[tactic(auto, unfolding(crate::specs::AsCoded::unwritten))]
    pub fn new(this: &Quadrant) -> Lag
        ensures { result ≡ unwritten this.now }
    {
        let first = Written {
            msum: 0,
            left: this[0],
        };
        Lag {
            early: *this,
            writes: [first; 4],
        }
    }

    // The write in slot j goes into the early view, as the word that it left in modifier-this.
    pub fn catch_up(&mut self, j: usize)
        requires { j < 4 }
        ensures { self.new ≡ record { early = caught_up self.old.early self.old.writes j; writes = self.old.writes } }
    {
        let write = self.writes[j];
        let i = (write.msum % 64) as usize;
        self.early[i] = write.left;
    }
}

// The word that MIN or MRM names, with a view of modifier-this.
pub fn look(s: &Sums, view: &Quadrant, address: u32) -> u32
    ensures { Word (seen s.now view.now address) result }
{
    let i = (address % 64) as usize;
    match address / 64 {
        0b00 => pass_sums::quadrant_word(s, pass_sums::GENERATOR_LAST, i),
        0b01 => pass_sums::quadrant_word(s, pass_sums::MODIFIER_LAST, i),
        _ => pass_sums::word_at(view, i),
    }
}

// Whether a function reads A late, by a text.
fn reads_late(text: Text, function: u32) -> bool
    requires { function < 32 }
    ensures { result ≡ modifier_reads_late text function }
{
    match text {
        Text::Of1978 => modifier_turn::reads_late(function),
        Text::Old => modifier_old::reads_late(function),
    }
}

// A modifier's turn by a text, with A and B.
fn turn(text: Text, u: Modifier, a: u32, b: u32) -> Turned
    requires ranged { Ranged u }
    requires a_bound { (a < 2 ^ 20) × (b < 2 ^ 20) }
    ensures { result ≡ modifier_turn text u a b }
{
    match text {
        Text::Of1978 => modifier_turn::turn(u, a, b),
        Text::Old => modifier_old::turn(u, a, b),
    }
}

// The turn of a modifier that reads B early, and A late or early by its function. The late view is modifier-this itself.
pub fn turned(text: Text, s: &Sums, early: &Quadrant, u: Modifier) -> Turned
    requires { Ranged u }
    ensures { result ≡ turn_with_b text s.now early.now (get_or s.now modifier_this []) u }
{
    let late = &s[pass_sums::MODIFIER_THIS];
    let b = look(s, early, u.mrm);
    if reads_late(text, u.function()) {
        return turn(text, u, look(s, late, u.min), b);
    }
    turn(text, u, look(s, early, u.min), b)
}

// S is added into the word of modifier-this at MSUM, or replaces it; the answer is the word that this leaves.
pub fn put(s: &mut Sums, msum: u32, value: u32) -> u32
    requires { value < 2 ^ 20 }
    ensures { (result ≡ word_left (get_or s.old modifier_this []) (record { msum = msum; s = value })) × (s.new ≡ set s.old modifier_this (with_write (get_or s.old modifier_this []) (record { msum = msum; s = value }))) }
{
    let i = (msum % 64) as usize;
    if msum / 64 == 0 {
        let v = base_words::add::<20>(
            pass_sums::quadrant_word(s, pass_sums::MODIFIER_THIS, i),
            value,
        );
        s[pass_sums::MODIFIER_THIS][i] = v;
        return v;
    }
    s[pass_sums::MODIFIER_THIS][i] = value;
    value
}
