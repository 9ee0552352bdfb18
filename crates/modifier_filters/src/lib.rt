// The modifiers' turns with poles and zeros.
#![tactic(auto)]

ghost use Rattle.std.specs.Prelude.{◌≡◌, ◌<◌, ◌^◌};
ghost use Rattle.modifier.specs.Modifier.{Ranged, shifted};
ghost use Rattle.modifier.specs.Coefficients.{held};
ghost use Rattle.base_words.specs.Words.{Word};
ghost use Rattle.modifier_filters.specs.Filters.{one_pole, filtered, one_zero, two_poles, variable, two_poles_variable, two_zeros, two_zeros_variable};

use modifier::Coefficient::{M0, M1};
use modifier::{Coefficient, Modifier, Turned};
use modifier_product::Product::Rounded;

// One pole: S := L1*M1 + B*L0; L1 := S.
#[tactic(auto, unfolding(crate::specs::Filters::one_pole))]
pub fn one_pole(u: Modifier, b: u32) -> Turned
    requires ranged { Ranged u }
    requires b_bound { b < 2 ^ 20 }
    ensures { result ≡ one_pole u b }
{
    let s = modifier::added(u.times(Rounded, M1, u.l1), u.times_signal(b, u.l0));
    Modifier { l1: s, ..u }.gives(s)
}

// L1*M1 + L0*M0, the sum of products of the 1978 text's filters.
#[tactic(auto, unfolding(crate::specs::Filters::filtered))]
pub fn filtered(u: Modifier) -> u32
    requires { Ranged u }
    ensures { Word (filtered u) result }
{
    modifier::added(u.times(Rounded, M1, u.l1), u.times(Rounded, M0, u.l0))
}

// L0 := L1; L1 := x.
fn shift(u: Modifier, x: u32) -> Modifier
    ensures { result ≡ shifted u x }
{
    Modifier {
        l0: u.l1,
        l1: x,
        ..u
    }
}

// One zero: S := L1*M1 + L0*M0; L0 := L1; L1 := A.
#[tactic(auto, unfolding(crate::specs::Filters::one_zero))]
pub fn one_zero(u: Modifier, a: u32) -> Turned
    requires { Ranged u }
    ensures { result ≡ one_zero u a }
{
    shift(u, a).gives(filtered(u))
}

// Two poles and two zeros are two functions of the page, which differ in what L1 takes.
// Two poles, with the sum x of products: S := x + A; L0 := L1; L1 := S.
#[tactic(auto, unfolding(crate::specs::Filters::two_poles))]
pub fn two_poles(u: Modifier, x: u32, a: u32) -> Turned
    requires { (x < 2 ^ 20) × (a < 2 ^ 20) }
    ensures { result ≡ two_poles u x a }
{
    let s = modifier::added(x, a);
    shift(u, s).gives(s)
}

// After a turn, a coefficient has B added.
fn variable(t: Turned, by: Coefficient, b: u32) -> Turned
    requires { (held by t.unit < 2 ^ 30) × (b < 2 ^ 20) }
    ensures { result ≡ variable by t b }
{
    let v = t.unit;
    match by {
        M0 => Modifier {
            m0: base_words::into::<30>(v.m0, b),
            ..v
        }
        .gives(t.s),
        M1 => Modifier {
            m1: base_words::into::<30>(v.m1, b),
            ..v
        }
        .gives(t.s),
    }
}

// Two poles, M0 or M1 variable.
pub fn two_poles_variable(u: Modifier, by: Coefficient, x: u32, a: u32, b: u32) -> Turned
    requires ranged { Ranged u }
    requires x_bound { (x < 2 ^ 20) × (a < 2 ^ 20) × (b < 2 ^ 20) }
    ensures { result ≡ two_poles_variable by u x a b }
{
    variable(two_poles(u, x, a), by, b)
}

// Two zeros, with the sum x of products: S := x + A; L0 := L1; L1 := A.
#[tactic(auto, unfolding(crate::specs::Filters::two_zeros))]
pub fn two_zeros(u: Modifier, x: u32, a: u32) -> Turned
    requires { (x < 2 ^ 20) × (a < 2 ^ 20) }
    ensures { result ≡ two_zeros u x a }
{
    let s = modifier::added(x, a);
    shift(u, a).gives(s)
}

// Two zeros, M0 or M1 variable.
pub fn two_zeros_variable(u: Modifier, by: Coefficient, x: u32, a: u32, b: u32) -> Turned
    requires ranged { Ranged u }
    requires x_bound { (x < 2 ^ 20) × (a < 2 ^ 20) × (b < 2 ^ 20) }
    ensures { result ≡ two_zeros_variable by u x a b }
{
    variable(two_zeros(u, x, a), by, b)
}
