// The modifiers' turns that change no register.
#![tactic(auto)]

ghost use Rattle.std.specs.Prelude.{◌≡◌, ◌<◌, ◌^◌};
ghost use Rattle.modifier.specs.Modifier.{Ranged};
ghost use Rattle.modifier_mixers.specs.Mixers.{inactive, mixing_by, signum, minimum, maximum, threshold};

use modifier::Coefficient::{M0, M1};
use modifier::{Modifier, Turned};
use modifier_product::Product;
use modifier_product::Product::Rounded;

// Inactive: S := 0.
#[tactic(auto, unfolding(crate::specs::Mixers::inactive))]
pub fn inactive(u: Modifier) -> Turned
    ensures { result ≡ inactive u }
{
    u.gives(0)
}

// Mixing and integer mixing, by the kind of product: S := A*M0 + B*M1.
#[tactic(auto, unfolding(crate::specs::Mixers::mixing_by))]
pub fn mixing(u: Modifier, kind: Product, a: u32, b: u32) -> Turned
    requires ranged { Ranged u }
    requires a_bound { (a < 2 ^ 20) × (b < 2 ^ 20) }
    ensures { result ≡ mixing_by kind u a b }
{
    u.gives(modifier::added(u.times(kind, M0, a), u.times(kind, M1, b)))
}

// Signum: S := -1, 0 or 1, as A*M0 is less than, equal to or greater than B*M1.
#[tactic(auto, unfolding(crate::specs::Mixers::signum, base_words::specs::Words::low_bits))]
pub fn signum(u: Modifier, a: u32, b: u32) -> Turned
    requires ranged { Ranged u }
    requires a_bound { (a < 2 ^ 20) × (b < 2 ^ 20) }
    ensures { result ≡ signum u a b }
{
    let x = u.times(Rounded, M0, a);
    let y = u.times(Rounded, M1, b);
    u.gives(if modifier_product::less20(x, y) {
        1048575
    } else if x == y {
        0
    } else {
        1
    })
}

// Minimum and maximum are two functions of the page, each its one choice.
// Minimum: S := min (A*M0, B*M1).
#[tactic(auto, unfolding(crate::specs::Mixers::minimum))]
pub fn minimum(u: Modifier, a: u32, b: u32) -> Turned
    requires ranged { Ranged u }
    requires a_bound { (a < 2 ^ 20) × (b < 2 ^ 20) }
    ensures { result ≡ minimum u a b }
{
    let x = u.times(Rounded, M0, a);
    let y = u.times(Rounded, M1, b);
    u.gives(if modifier_product::less20(x, y) { x } else { y })
}

// Maximum: S := max (A*M0, B*M1).
#[tactic(auto, unfolding(crate::specs::Mixers::maximum))]
pub fn maximum(u: Modifier, a: u32, b: u32) -> Turned
    requires ranged { Ranged u }
    requires a_bound { (a < 2 ^ 20) × (b < 2 ^ 20) }
    ensures { result ≡ maximum u a b }
{
    let x = u.times(Rounded, M0, a);
    let y = u.times(Rounded, M1, b);
    u.gives(if modifier_product::less20(x, y) { y } else { x })
}

// Threshold: S := 0 where A*M0 + L0 is less than 0, else S := B*M1.
#[tactic(auto, unfolding(crate::specs::Mixers::threshold))]
pub fn threshold(u: Modifier, a: u32, b: u32) -> Turned
    requires ranged { Ranged u }
    requires a_bound { (a < 2 ^ 20) × (b < 2 ^ 20) }
    ensures { result ≡ threshold u a b }
{
    let x = modifier::added(u.times(Rounded, M0, a), u.l0);
    u.gives(if modifier_product::less20(x, 0) {
        0
    } else {
        u.times(Rounded, M1, b)
    })
}
