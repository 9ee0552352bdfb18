// A modifier's turn by the older text. Where its formula is the 1978 text's, so is the function.
#![tactic(auto)]

ghost use Rattle.std.specs.Prelude.{◌≡◌, ◌<◌, ◌^◌};
ghost use Rattle.base_words.specs.Words.{Word};
ghost use Rattle.modifier.specs.Modifier.{Ranged};
ghost use Rattle.modifier.specs.Functions.{turn_in};
ghost use Rattle.modifier_old.specs.OldTurn.{exchanged, old_filtered, old_noise, old_functions, old_turn_of, old_reads_late};

use modifier::Coefficient::{M0, M1};
use modifier::{Modifier, Turned};
use modifier_product::Product::{Rounded, Whole};

// Bit f is 1 where function f reads A late.
const LATE: u32 = 0b0000_0000_0000_0000_0111_0111_0000_0100;

// A modifier with AA and BB in each other's place.
#[tactic(auto, unfolding(crate::specs::OldTurn::exchanged))]
fn exchanged(u: Modifier) -> Modifier
    ensures { result ≡ exchanged u }
{
    Modifier {
        mmode: u.function() * 16 + u.mmode % 4 * 4 + u.mmode / 4 % 4,
        ..u
    }
}

// L0*M1 + L1*M0.
#[tactic(auto, unfolding(crate::specs::OldTurn::old_filtered))]
fn filtered(u: Modifier) -> u32
    requires { Ranged u }
    ensures { Word (old_filtered u) result }
{
    modifier::added(u.times(Rounded, M1, u.l0), u.times(Rounded, M0, u.l1))
}

// L0 + L1*M0, an integer product.
#[tactic(auto, unfolding(crate::specs::OldTurn::old_noise))]
fn noise(u: Modifier) -> u32
    requires { Ranged u }
    ensures { Word (old_noise u) result }
{
    modifier::added(u.l0, u.times(Whole, M0, u.l1))
}

// The turn by the code of a function, of a modifier with AA and BB exchanged.
#[tactic(auto, unfolding(modifier_mixers::specs::Mixers::inactive, modifier_mixers::specs::Mixers::mixing, modifier_mixers::specs::Mixers::mixing_by))]
fn turn_by(f: u32, u: Modifier, a: u32, b: u32) -> Turned
    requires ranged { Ranged u }
    requires a_bound { (a < 2 ^ 20) × (b < 2 ^ 20) }
    ensures { result ≡ turn_in old_functions f u a b }
{
    match f {
        0b00000 => modifier_mixers::inactive(u),
        0b00001 => modifier_mixers::mixing(u, Rounded, a, b),
        0b00010 => modifier_modulators::latch(u, a, b),
        0b00011 => modifier_modulators::pulser(u, b, 0),
        0b00100 => modifier_modulators::amplitude_modulation(u, a, b),
        0b00101 => modifier_modulators::four_quadrant(u, a, b),
        0b00110 => modifier_mixers::minimum(u, a, b),
        0b00111 => modifier_mixers::maximum(u, a, b),
        0b01000 => modifier_filters::two_poles(u, filtered(u), a),
        0b01001 => modifier_filters::two_poles_variable(u, M0, filtered(u), a, b),
        0b01010 => modifier_filters::two_poles_variable(u, M1, filtered(u), a, b),
        0b01100 => modifier_filters::two_zeros(u, filtered(u), a),
        0b01101 => modifier_filters::two_zeros_variable(u, M0, filtered(u), a, b),
        0b01110 => modifier_filters::two_zeros_variable(u, M1, filtered(u), a, b),
        0b10000 => modifier_modulators::uniform_noise(u, noise(u)),
        _ => modifier_mixers::inactive(u),
    }
}

// The turn by the function's code: the registers afterwards, and S.
pub fn turn(u: Modifier, a: u32, b: u32) -> Turned
    requires ranged { Ranged u }
    requires a_bound { (a < 2 ^ 20) × (b < 2 ^ 20) }
    ensures { result ≡ old_turn_of u a b }
{
    let t = turn_by(u.function(), exchanged(u), a, b);
    Modifier {
        mmode: u.mmode,
        ..t.unit
    }
    .gives(t.s)
}

// Whether A in modifier-this sees the writes up to m-1.
pub fn reads_late(f: u32) -> bool
    requires { f < 32 }
    ensures { result ≡ old_reads_late f }
{
    base_words::bit(LATE, f)
}
