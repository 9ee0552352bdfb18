// Words of a width that the const parameter gives: their sums, reduced to their low bits, and whether an exact sum leaves its range.
#![tactic(auto)]

ghost use Rattle.std.specs.Prelude.{◌≡◌, ◌/◌, ◌%◌, ◌^◌, ◌-◌, ◌<◌, ◌==◌, pos, ◌+ℤ◌, ◌-ℤ◌, nat_le};
ghost use Rattle.std.specs.Int.Signed.{mag};
ghost use Rattle.base_words.specs.Words.{low_bits, signed, sum, leaves, extended, sum_into, exact_sum, outside, value_of};

// A number by its sign, 0 or 1 where it is negative, and its magnitude.
#[derive(Clone, Copy)]
pub struct SignMagnitude {
    pub sign: u32,
    pub magnitude: u32,
}

// The sum of two words of W bits, reduced to W bits: the same for signed words and for words without a sign.
pub fn add<const W: u32>(a: u32, b: u32) -> u32
    requires width { W < 32 }
    requires words { (a < 2 ^ W) × (b < 2 ^ W) }
    ensures as_unsigned { result ≡ low_bits W (pos a +ℤ pos b) }
    ensures as_signed { result ≡ sum W a b }
{
    a.wrapping_add(b) % (1 << W)
}

// The difference of two words of W bits, reduced to W bits.
pub fn subtract<const W: u32>(a: u32, b: u32) -> u32
    requires width { W < 32 }
    requires words { (a < 2 ^ W) × (b < 2 ^ W) }
    ensures { result ≡ low_bits W (pos a -ℤ pos b) }
{
    a.wrapping_sub(b) % (1 << W)
}

// A signed word of W bits by its bias: the number 2^(W - 1) above it.
pub fn biased<const W: u32>(b: u32) -> u32
    requires width { (0 < W) × (W < 32) }
    requires word { b < 2 ^ W }
    ensures low { result < 2 ^ W }
    ensures above { signed W b ≡ pos result -ℤ pos (2 ^ (W - 1)) }
{
    (b + (1 << (W - 1))) % (1 << W)
}

// A signed word of W bits as one of 32 bits.
pub fn extend<const W: u32>(b: u32) -> u32
    requires width { (0 < W) × (W < 32) }
    requires word { b < 2 ^ W }
    ensures { result ≡ extended W 32 b }
{
    biased::<W>(b).wrapping_sub(1 << (W - 1))
}

// The exact sum of two signed words of W bits, as a signed word of 32 bits.
pub fn exact<const W: u32>(a: u32, b: u32) -> u32
    requires width { (0 < W) × (W < 31) }
    requires words { (a < 2 ^ W) × (b < 2 ^ W) }
    ensures { signed 32 result ≡ signed W a +ℤ signed W b }
{
    extend::<W>(a).wrapping_add(extend::<W>(b))
}

// The low W bits of an exact sum.
pub fn low<const W: u32>(exact: u32) -> u32
    requires width { W < 32 }
    ensures is { result ≡ low_bits W (signed 32 exact) }
    ensures low { result < 2 ^ W }
{
    exact % (1 << W)
}

// Whether an exact sum leaves the range of a signed word of W bits. One below it wraps to a number far above.
pub fn beyond<const W: u32>(exact: u32) -> bool
    requires width { (0 < W) × (W < 32) }
    ensures { result ≡ nat_le (2 ^ (W - 1)) (mag (signed 32 exact)) }
{
    let raised = exact.wrapping_add(1 << (W - 1));
    1 << W <= raised
}

// Whether the signed sum of two words of W bits leaves its range.
pub fn leaves_range<const W: u32>(a: u32, b: u32) -> bool
    requires width { (0 < W) × (W < 31) }
    requires words { (a < 2 ^ W) × (b < 2 ^ W) }
    ensures { result ≡ leaves W a b }
{
    beyond::<W>(exact::<W>(a, b))
}

// A signed word of 20 bits added into a register of U bits, reduced to U bits: the same for a signed register and for an unsigned one.
pub fn into<const U: u32>(a: u32, b: u32) -> u32
    requires width { U < 32 }
    requires words { (a < 2 ^ U) × (b < 2 ^ 20) }
    ensures as_unsigned { result ≡ low_bits U (exact_sum 20 a b) }
    ensures as_signed { result ≡ sum_into U 20 a b }
{
    a.wrapping_add(extend::<20>(b)) % (1 << U)
}

// Whether that sum, before it is reduced, is outside 0 to 2^U - 1. One below 0 wraps to a number above that range.
pub fn outside_range<const U: u32>(a: u32, b: u32) -> bool
    requires width { U < 31 }
    requires words { (a < 2 ^ U) × (b < 2 ^ 20) }
    ensures { result ≡ outside U (exact_sum 20 a b) }
{
    let wrapped = a.wrapping_add(extend::<20>(b));
    1 << U <= wrapped
}

// The low W bits of a number that is given by its sign and its magnitude.
pub fn word<const W: u32>(s: SignMagnitude) -> u32
    requires width { W < 32 }
    ensures { result ≡ low_bits W (value_of s) }
{
    if s.sign == 0 {
        s.magnitude % (1 << W)
    } else {
        0u32.wrapping_sub(s.magnitude) % (1 << W)
    }
}

// Whether bit k of a mask is 1, bit 0 being the rightmost.
pub fn bit(mask: u32, k: u32) -> bool
    requires { k < 32 }
    ensures { result ≡ (mask / 2 ^ k % 2 == 1) }
{
    (mask >> k) % 2 == 1
}
