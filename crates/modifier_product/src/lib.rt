// The modifiers' products of signed words of 20 bits, and what else a modifier asks of such words.
#![tactic(auto)]

ghost use Rattle.std.specs.Prelude.{◌≡◌, ◌<◌, ◌≤◌, ◌^◌, nat_abs};
ghost use Rattle.base_words.specs.Words.{signed, low_bits};
ghost use Rattle.modifier_product.specs.Product.{scaled, product_by, less, opposite, half};

// A product of two words: what is taken of ab times 2^s.
#[derive(Clone, Copy, PartialEq, Eq, Debug)]
pub enum Product {
    // The product of fractions, rounded.
    Rounded,
    // The integer product.
    Integer,
    // The integer product of the older text.
    Whole,
}

// The integer that a signed word of 20 bits stands for.
fn value20(a: u32) -> i64
    requires { a < 2 ^ 20 }
    ensures { result ≡ signed 20 a }
{
    base_words::biased::<20>(a) as i64 - 524288
}

// The low 20 bits of an integer.
fn low20(z: i64) -> u32
    requires { nat_abs z ≤ 2 ^ 42 }
    ensures { result ≡ low_bits 20 z }
{
    ((z + 4398046511104) as u64 % 1048576) as u32
}

// Two signed words of 20 bits multiplied at scale s.
fn multiplied(s: u32, a: u32, b: u32) -> i64
    requires { (s < 4) × (a < 2 ^ 20) × (b < 2 ^ 20) }
    ensures { result ≡ scaled s a b }
{
    let k = (1 << s) as i64;
    value20(a) * value20(b) * k
}

// The product of two signed words of 20 bits at scale s, reduced to 20 bits.
pub fn multiply(kind: Product, s: u32, a: u32, b: u32) -> u32
    requires { (s < 4) × (a < 2 ^ 20) × (b < 2 ^ 20) }
    ensures { result ≡ product_by kind s a b }
{
    let z = multiplied(s, a, b);
    match kind {
        Product::Rounded => low20((z + 262144) >> 19),
        Product::Integer => low20(z >> 2),
        Product::Whole => low20(z),
    }
}

// Whether a signed word of 20 bits is less than another.
pub fn less20(a: u32, b: u32) -> bool
    requires { (a < 2 ^ 20) × (b < 2 ^ 20) }
    ensures { result ≡ less a b }
{
    base_words::biased::<20>(a) < base_words::biased::<20>(b)
}

// Whether the exact product of two signed words of 20 bits is negative.
pub fn opposite20(a: u32, b: u32) -> bool
    requires { (a < 2 ^ 20) × (b < 2 ^ 20) }
    ensures { result ≡ opposite a b }
{
    value20(a) * value20(b) < 0
}

// (b+1)/2 of a fraction b.
pub fn half20(b: u32) -> u32
    requires { b < 2 ^ 20 }
    ensures { result ≡ half b }
{
    base_words::biased::<20>(b) / 2
}
