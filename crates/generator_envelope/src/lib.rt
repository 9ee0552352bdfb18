// The envelope of a generator, and the wave under it.
#![tactic(auto)]

ghost use Rattle.std.specs.Prelude.{◌<◌, ◌^◌, ◌≡◌};
ghost use Rattle.base_words.specs.Words.{low_bits, value_of};
ghost use Rattle.generator_envelope.specs.Envelope.{overflows, decayed, q_of, level_by, level, enveloped};

use base_words::SignMagnitude;
use generator_exponential::Entries;

// Whether GQ plus GP leaves the range of GQ.
#[tactic(auto, unfolding(crate::specs::Envelope::overflows))]
pub fn overflows(gq: u32, gp: u32) -> bool
    requires { (gq < 2 ^ 24) × (gp < 2 ^ 20) }
    ensures { result ≡ overflows gq gp }
{
    base_words::outside_range::<24>(gq, gp)
}

// GQ plus GP; of an overflow GQ is kept where the envelope is sticky, and wraps where it is free.
#[tactic(auto, unfolding(crate::specs::Envelope::decayed))]
pub fn decayed(free: bool, gq: u32, gp: u32) -> u32
    requires { (gq < 2 ^ 24) × (gp < 2 ^ 20) }
    ensures { result ≡ decayed free gq gp }
{
    if overflows(gq, gp) && !free {
        gq
    } else {
        base_words::into::<24>(gq, gp)
    }
}

// Q: the high 12 bits of GQ, or the exponential of its high 14.
#[tactic(auto, unfolding(crate::specs::Envelope::q_of))]
pub fn q(table: &Entries, mode: u32, gq: u32) -> u32
    requires { gq < 2 ^ 24 }
    ensures { result ≡ q_of mode gq }
{
    if 2 <= mode {
        table.exponential(gq)
    } else {
        gq / 4096
    }
}

// GL plus Q, or minus Q.
pub fn level_by(plus: bool, gl: u32, q: u32) -> u32
    requires { (gl < 2 ^ 12) × (q < 2 ^ 12) }
    ensures { result ≡ level_by plus gl q }
{
    if plus {
        base_words::add::<12>(gl, q)
    } else {
        base_words::subtract::<12>(gl, q)
    }
}

// V: GL minus or plus Q.
pub fn level(table: &Entries, mode: u32, gl: u32, gq: u32) -> u32
    requires { (gl < 2 ^ 12) × (gq < 2 ^ 24) }
    ensures { result ≡ level mode gl gq }
{
    let q = q(table, mode, gq);
    level_by(mode % 2 == 1, gl, q)
}

// P: the wave under the level v, rounded and then signed, as a word of 20 bits.
pub fn enveloped(w: SignMagnitude, v: u32) -> u32
    requires { (w.sign < 2) × (w.magnitude < 2 ^ 12) × (v < 2 ^ 12) }
    ensures { result ≡ low_bits 20 (enveloped (value_of w) v) }
{
    let magnitude = (w.magnitude * v + 32) / 64;
    base_words::word::<20>(SignMagnitude {
        sign: w.sign,
        magnitude,
    })
}
