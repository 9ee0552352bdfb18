// A modifier's turn by the code of its function.
#![tactic(auto)]

ghost use Rattle.std.specs.Prelude.{◌≡◌, ◌<◌, ◌^◌};
ghost use Rattle.modifier.specs.Modifier.{Ranged};
ghost use Rattle.modifier_turn.specs.Turn.{turn_of, reads_late};

use modifier::Coefficient::{M0, M1};
use modifier::{Modifier, Turned};
use modifier_product::Product::{Integer, Rounded};

// Bit f is 1 where function f reads A late.
const LATE: u32 = 0b0000_0000_0100_0000_1011_1011_1001_0000;

// The turn by the function's code: the registers afterwards, and S. b is B, or DM in 00111, where B is not read.
#[tactic(auto, unfolding(crate::specs::Turn::turn_of, modifier_mixers::specs::Mixers::inactive, modifier_mixers::specs::Mixers::integer_mixing, modifier_mixers::specs::Mixers::mixing, modifier_mixers::specs::Mixers::mixing_by))]
pub fn turn(u: Modifier, a: u32, b: u32) -> Turned
    requires ranged { Ranged u }
    requires a_bound { (a < 2 ^ 20) × (b < 2 ^ 20) }
    ensures { result ≡ turn_of u a b }
{
    let f = u.function();
    match f {
        0b00000 => modifier_mixers::inactive(u),
        0b00010 => modifier_modulators::uniform_noise(u, modifier_modulators::noise(u)),
        0b00011 => modifier_modulators::triggered_noise(u, b),
        0b00100 => modifier_modulators::latch(u, a, b),
        0b00110 => modifier_mixers::threshold(u, a, b),
        0b00111 => modifier_delay::invoke_delay(u, a, b),
        0b01000 => modifier_filters::two_poles(u, modifier_filters::filtered(u), a),
        0b01001 => modifier_filters::two_poles_variable(u, M0, modifier_filters::filtered(u), a, b),
        0b01011 => modifier_filters::two_poles_variable(u, M1, modifier_filters::filtered(u), a, b),
        0b01100 => modifier_filters::two_zeros(u, modifier_filters::filtered(u), a),
        0b01101 => modifier_filters::two_zeros_variable(u, M0, modifier_filters::filtered(u), a, b),
        0b01111 => modifier_filters::two_zeros_variable(u, M1, modifier_filters::filtered(u), a, b),
        0b10000 => modifier_mixers::mixing(u, Integer, a, b),
        0b10001 => modifier_filters::one_pole(u, b),
        0b10100 => modifier_mixers::mixing(u, Rounded, a, b),
        0b10110 => modifier_filters::one_zero(u, a),
        0b11000 => modifier_modulators::four_quadrant(u, a, b),
        0b11001 => modifier_modulators::amplitude_modulation(u, a, b),
        0b11010 => modifier_mixers::maximum(u, a, b),
        0b11011 => modifier_mixers::minimum(u, a, b),
        0b11100 => modifier_mixers::signum(u, a, b),
        0b11101 => modifier_modulators::pulser(u, b, modifier_modulators::MINUS_EPSILON),
        _ => modifier_mixers::inactive(u),
    }
}

// Whether A in modifier-this sees the writes up to m-1.
pub fn reads_late(f: u32) -> bool
    requires { f < 32 }
    ensures { result ≡ reads_late f }
{
    base_words::bit(LATE, f)
}
