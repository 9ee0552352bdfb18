// The modifiers' turn that invokes a delay unit.
#![tactic(auto)]

ghost use Rattle.std.specs.Prelude.{◌≡◌, ◌<◌, ◌^◌, eqb};
ghost use Rattle.modifier.specs.Modifier.{Ranged};
ghost use Rattle.modifier_delay.specs.Invoke.{unit_of, invoke_delay};

use modifier::Coefficient::{M0, M1};
use modifier::{Modifier, Turned};
use modifier_product::Product::Rounded;

// Whether a function invokes a delay unit.
pub fn invoking(f: u32) -> bool
    ensures { result ≡ eqb f 0b00111 }
{
    f == 0b00111
}

// The unit's number: the low 5 bits of MRM.
pub fn unit_of(u: Modifier) -> usize
    ensures { (result ≡ unit_of u) × (result < 32) }
{
    (u.mrm % 32) as usize
}

// Invoke delay unit: S := L0 + L1*M0; L0 := DM; L1 := A + DM*M1, which is also the word that goes to the unit.
#[tactic(auto, unfolding(crate::specs::Invoke::invoke_delay))]
pub fn invoke_delay(u: Modifier, a: u32, dm: u32) -> Turned
    requires ranged { Ranged u }
    requires a_bound { (a < 2 ^ 20) × (dm < 2 ^ 20) }
    ensures { result ≡ invoke_delay u a dm }
{
    let s = modifier::added(u.l0, u.times(Rounded, M0, u.l1));
    let temp0 = modifier::added(a, u.times(Rounded, M1, dm));
    Modifier {
        l0: dm,
        l1: temp0,
        ..u
    }
    .gives(s)
}
