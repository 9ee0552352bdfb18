// One modifier by value: its registers, and its products.
#![tactic(auto)]

ghost use Rattle.std.specs.Prelude.{◌≡◌, ◌≤◌, ◌<◌, ◌^◌, length};
ghost use Rattle.base_words.specs.Words.{sum, Word};
ghost use Rattle.modifier.specs.Modifier.{loaded, stored, Ranged, function_of, times_signal, gives};
ghost use Rattle.modifier.specs.Coefficients.{times};

use modifier_product::{Product, multiply};

// A coefficient of a modifier.
#[derive(Clone, Copy, PartialEq, Eq, Debug)]
pub enum Coefficient {
    // M0, the factor of the second multiplication.
    M0,
    // M1, the factor of the first.
    M1,
}

#[derive(Clone, Copy)]
pub struct Modifier {
    pub m0: u32,
    pub m1: u32,
    pub l0: u32,
    pub l1: u32,
    pub min: u32,
    pub mrm: u32,
    pub msum: u32,
    pub mmode: u32,
}

// What a turn gives: the registers afterwards, and S.
#[derive(Clone, Copy)]
pub struct Turned {
    pub unit: Modifier,
    pub s: u32,
}

// The sum of two words of 20 bits.
pub fn added(x: u32, y: u32) -> u32
    requires { (x < 2 ^ 20) × (y < 2 ^ 20) }
    ensures { Word (sum 20 x y) result }
{
    base_words::add::<20>(x, y)
}

impl Modifier {
    // The modifier whose words a part of the machine starts with.
    #[tactic(auto, unfolding(crate::specs::Modifier::loaded))]
    pub fn load(m: &[u32]) -> Modifier
        requires { 8 ≤ length m.now }
        ensures { result ≡ loaded m.now }
    {
        Modifier {
            m0: m[layout::M0] % layout::COEFFICIENT_LIMIT,
            m1: m[layout::M1] % layout::COEFFICIENT_LIMIT,
            l0: m[layout::L0] % layout::LATCH_LIMIT,
            l1: m[layout::L1] % layout::LATCH_LIMIT,
            min: m[layout::MIN] % layout::ADDRESS_LIMIT,
            mrm: m[layout::MRM] % layout::ADDRESS_LIMIT,
            msum: m[layout::MSUM] % layout::MSUM_LIMIT,
            mmode: m[layout::MMODE] % layout::MMODE_LIMIT,
        }
    }

    // The registers that a turn can change are written back.
    #[tactic(auto, unfolding(crate::specs::Modifier::stored))]
    pub fn store(self, m: &mut [u32])
        requires { 8 ≤ length m.old }
        ensures { m.new ≡ stored m.old 0 self }
    {
        m[layout::M0] = self.m0;
        m[layout::M1] = self.m1;
        m[layout::L0] = self.l0;
        m[layout::L1] = self.l1;
    }

    // The function's code.
    pub fn function(self) -> u32
        ensures { result ≡ function_of self }
    {
        self.mmode / 16 % 32
    }

    // The product of x and a coefficient: one with M1 is a first multiplication, one with M0 a second.
    pub fn times(self, kind: Product, by: Coefficient, x: u32) -> u32
        requires ranged { Ranged self }
        requires x_bound { x < 2 ^ 20 }
        ensures { Word (times kind by self x) result }
    {
        match by {
            Coefficient::M0 => multiply(kind, self.mmode / 4 % 4, x, self.m0 / 1024),
            Coefficient::M1 => multiply(kind, self.mmode % 4, x, self.m1 / 1024),
        }
    }

    // x*y of two signals, a second multiplication. It asks nothing of the registers, and so is no case of `times`.
    pub fn times_signal(self, x: u32, y: u32) -> u32
        requires { (x < 2 ^ 20) × (y < 2 ^ 20) }
        ensures { Word (times_signal self x y) result }
    {
        multiply(Product::Rounded, self.mmode / 4 % 4, x, y)
    }

    // What a turn gives that leaves these registers.
    pub fn gives(self, s: u32) -> Turned
        ensures { result ≡ gives self s }
    {
        Turned { unit: self, s }
    }
}
