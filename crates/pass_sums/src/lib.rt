// Sum memory by value: four quadrants of 64 words.
#![tactic(auto)]

ghost use Rattle.std.specs.Prelude.{◌≡◌, [], ◌+◌, ◌≤◌, ◌<◌, ◌^◌, length, get_or, take, drop};
ghost use Rattle.std.proofs.lemmas.List.Edits.{sets};
ghost use Rattle.layout.specs.Machine.{Reaches};
ghost use Rattle.base_words.specs.Words.{sum, leaves, Word};
ghost use Rattle.pass_sums.specs.Sums.{sums_of, word_at, sum_at, put_sum, f_at, closed};

// A quadrant, and sum memory: the quadrants by number.
pub type Quadrant = [u32; layout::QUADRANT_WORDS];

pub type Sums = [Quadrant; layout::QUADRANTS];

// A mark for each word of generator-this: 1 where a signed sum in it left its range in a pass, else 0. The marks are bytes, and not bools, for the C interface, which hands them out.
pub type Clipped = [u8; layout::QUADRANT_WORDS];

pub const GENERATOR_THIS: usize = 0;

pub const GENERATOR_LAST: usize = 1;

pub const MODIFIER_THIS: usize = 2;

pub const MODIFIER_LAST: usize = 3;

// The word at a place of a quadrant.
pub fn word_at(q: &Quadrant, i: usize) -> u32
    requires { i < 64 }
    ensures { Word (word_at q.now i) result }
{
    q[i] % layout::WORD_LIMIT
}

// The word at a place of quadrant k.
pub fn quadrant_word(s: &Sums, k: usize, i: usize) -> u32
    requires { (k < 4) × (i < 64) }
    ensures { Word (word_at (get_or s.now k []) i) result }
{
    s[k][i] % layout::WORD_LIMIT
}

// F: the word that GFM names.
pub fn f_at(s: &Sums, gfm: u32) -> u32
    requires { gfm < 2 ^ 7 }
    ensures { Word (f_at s.now gfm) result }
{
    let i = (gfm % 64) as usize;
    if gfm / 64 == 0 {
        return quadrant_word(s, GENERATOR_LAST, i);
    }
    quadrant_word(s, MODIFIER_LAST, i)
}

// P is added into generator-this word gsum; the answer is whether the signed sum left its range.
pub fn add(s: &mut Sums, gsum: u32, p: u32) -> bool
    requires { (gsum < 2 ^ 6) × (p < 2 ^ 20) }
    ensures { (s.new ≡ put_sum s.old gsum (sum 20 (sum_at s.old gsum) p)) × (result ≡ leaves 20 (sum_at s.old gsum) p) }
{
    let i = (gsum % 64) as usize;
    let word = quadrant_word(s, GENERATOR_THIS, i);
    let sum = base_words::add::<20>(word, p);
    s[GENERATOR_THIS][i] = sum;
    base_words::leaves_range::<20>(word, p)
}

// Generator-this word gsum is replaced.
pub fn replace(s: &mut Sums, gsum: u32, v: u32)
    requires { gsum < 2 ^ 6 }
    ensures { s.new ≡ put_sum s.old gsum v }
{
    let i = (gsum % 64) as usize;
    s[GENERATOR_THIS][i] = v;
}

// The 64 words of the machine from a place on.
fn quadrant(m: &[u32], at: usize) -> Quadrant
    requires { at + 64 ≤ length m.now }
    ensures { result ≡ take 64 (drop at m.now) }
{
    let mut words = [0u32; layout::QUADRANT_WORDS];
    words.copy_from_slice(&m[at..at + layout::QUADRANT_WORDS]);
    words
}

// The sum memory of a machine.
pub fn load(m: &[u32]) -> Sums
    requires { Reaches m.now }
    ensures { result ≡ sums_of m.now }
{
    let generator_this = quadrant(m, layout::GENERATOR_THIS_AT);
    let generator_last = quadrant(m, layout::GENERATOR_LAST_AT);
    let modifier_this = quadrant(m, layout::MODIFIER_THIS_AT);
    let modifier_last = quadrant(m, layout::MODIFIER_LAST_AT);
    [generator_this, generator_last, modifier_this, modifier_last]
}

// A quadrant is written from a place of the machine on.
fn put_quadrant(m: &mut [u32], at: usize, words: &Quadrant)
    requires { at + 64 ≤ length m.old }
    ensures { m.new ≡ sets m.old at words.now }
{
    m[at..at + layout::QUADRANT_WORDS].copy_from_slice(words);
}

// The end of a pass: both this-pass quadrants are copied to last, and cleared.
pub fn close(m: &mut [u32], s: &Sums)
    requires { Reaches m.old }
    ensures { m.new ≡ closed m.old s.now }
{
    let zeros = [0u32; layout::QUADRANT_WORDS];
    put_quadrant(m, layout::GENERATOR_THIS_AT, &zeros);
    put_quadrant(m, layout::GENERATOR_LAST_AT, &s[GENERATOR_THIS]);
    put_quadrant(m, layout::MODIFIER_THIS_AT, &zeros);
    put_quadrant(m, layout::MODIFIER_LAST_AT, &s[MODIFIER_THIS]);
}
