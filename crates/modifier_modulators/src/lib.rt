// The modifiers' turns that keep a term in L1 for the next pass, filters aside.
#![tactic(auto)]

ghost use Rattle.std.specs.Prelude.{◌≡◌, ◌<◌, ◌^◌};
ghost use Rattle.modifier.specs.Modifier.{Ranged};
ghost use Rattle.base_words.specs.Words.{Word};
ghost use Rattle.modifier_modulators.specs.Modulators.{latch, pulser, amplitude_modulation, four_quadrant, noise, uniform_noise, triggered_noise};

use modifier::Coefficient::{M0, M1};
use modifier::{Modifier, Turned};
use modifier_product::Product::{Integer, Rounded};

// -epsilon: a word with all bits set.
pub const MINUS_EPSILON: u32 = 1048575;

// Latch: S := L1; if B*M1 is not 0, L1 := A.
#[tactic(auto, unfolding(crate::specs::Modulators::latch))]
pub fn latch(u: Modifier, a: u32, b: u32) -> Turned
    requires ranged { Ranged u }
    requires a_bound { (a < 2 ^ 20) × (b < 2 ^ 20) }
    ensures { result ≡ latch u a b }
{
    let v = if u.times(Rounded, M1, b) == 0 {
        u
    } else {
        Modifier { l1: a, ..u }
    };
    v.gives(u.l1)
}

// Zero-crossing pulser: S has all bits set where B*M0 has come to the other side of 0, and is z where it has come to 0.
#[tactic(auto, unfolding(crate::specs::Modulators::pulser))]
pub fn pulser(u: Modifier, b: u32, z: u32) -> Turned
    requires ranged { Ranged u }
    requires b_bound { b < 2 ^ 20 }
    ensures { result ≡ pulser u b z }
{
    let temp0 = u.times(Rounded, M0, b);
    let temp1 = u.times(Rounded, M1, u.l1);
    let v = Modifier { l1: temp0, ..u };
    v.gives(if temp1 == 0 {
        0
    } else if temp0 == 0 {
        z
    } else if modifier_product::opposite20(temp0, temp1) {
        MINUS_EPSILON
    } else {
        0
    })
}

// Amplitude modulation: S := L1*M1; L1 := A*((B+1)/2).
#[tactic(auto, unfolding(crate::specs::Modulators::amplitude_modulation, crate::specs::Modulators::four_quadrant))]
pub fn amplitude_modulation(u: Modifier, a: u32, b: u32) -> Turned
    requires ranged { Ranged u }
    requires a_bound { (a < 2 ^ 20) × (b < 2 ^ 20) }
    ensures { result ≡ amplitude_modulation u a b }
{
    four_quadrant(u, a, modifier_product::half20(b))
}

// Four-quadrant multiplication: S := L1*M1; L1 := A*B.
#[tactic(auto, unfolding(crate::specs::Modulators::four_quadrant))]
pub fn four_quadrant(u: Modifier, a: u32, b: u32) -> Turned
    requires ranged { Ranged u }
    requires a_bound { (a < 2 ^ 20) × (b < 2 ^ 20) }
    ensures { result ≡ four_quadrant u a b }
{
    let l1 = u.times_signal(a, b);
    Modifier { l1, ..u }.gives(u.times(Rounded, M1, u.l1))
}

// L0 + L1*M0, an integer product: the noise of the 1978 text.
#[tactic(auto, unfolding(crate::specs::Modulators::noise))]
pub fn noise(u: Modifier) -> u32
    requires { Ranged u }
    ensures { Word (noise u) result }
{
    modifier::added(u.l0, u.times(Integer, M0, u.l1))
}

// Uniform noise, with the noise n of a text: S := n; L1 := S.
#[tactic(auto, unfolding(crate::specs::Modulators::uniform_noise))]
pub fn uniform_noise(u: Modifier, n: u32) -> Turned
    ensures { result ≡ uniform_noise u n }
{
    Modifier { l1: n, ..u }.gives(n)
}

// Triggered uniform noise: S := L0 + L1*M0; if B*M1 is not 0, L1 := S.
#[tactic(auto, unfolding(crate::specs::Modulators::triggered_noise))]
pub fn triggered_noise(u: Modifier, b: u32) -> Turned
    requires ranged { Ranged u }
    requires b_bound { b < 2 ^ 20 }
    ensures { result ≡ triggered_noise u b }
{
    let s = noise(u);
    let v = if u.times(Integer, M1, b) == 0 {
        u
    } else {
        Modifier { l1: s, ..u }
    };
    v.gives(s)
}
