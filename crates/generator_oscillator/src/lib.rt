// The wave of a generator: one function for each shape.
#![tactic(auto)]

ghost use Rattle.std.specs.Prelude.{◌*◌, ◌<◌, ◌≤◌, ◌^◌, min, ◌≡◌};
ghost use Rattle.base_words.specs.Words.{signed};
ghost use Rattle.generator_oscillator.specs.Oscillator.{sawtooth, square, pulse, sine_wave, multiple, sum_of_cosines, Wave};

use base_words::SignMagnitude;
use generator_sine::Quarter;

// K itself, but 0 at -4,096.
pub fn sawtooth(k: u32) -> SignMagnitude
    requires { k < 2 ^ 13 }
    ensures { Wave (sawtooth (signed 13 k)) result }
{
    if k < 4096 {
        SignMagnitude {
            sign: 0,
            magnitude: k,
        }
    } else {
        SignMagnitude {
            sign: 1,
            magnitude: (8192 - k) % 4096,
        }
    }
}

// Half of the largest magnitude of a K of W bits, 2,048 of 13, with the sign of K.
pub fn square<const W: u32>(k: u32) -> SignMagnitude
    requires width { (1 < W) × (W < 14) }
    requires word { k < 2 ^ W }
    ensures { Wave (square W (signed W k)) result }
{
    SignMagnitude {
        sign: k >> (W - 1),
        magnitude: 1 << (W - 2),
    }
}

// That half where a signed sum left its range, else 0.
pub fn pulse<const W: u32>(left: bool) -> SignMagnitude
    requires { (1 < W) × (W < 14) }
    ensures { Wave (pulse W left) result }
{
    if left {
        SignMagnitude {
            sign: 0,
            magnitude: 1 << (W - 2),
        }
    } else {
        SignMagnitude {
            sign: 0,
            magnitude: 0,
        }
    }
}

// The sine of K, shifted right GM places.
pub fn sine_wave(table: &Quarter, k: u32, gm: u32) -> SignMagnitude
    requires { (k < 2 ^ 13) × (gm ≤ 2 ^ 4) }
    ensures { Wave (sine_wave k gm) result }
{
    let whole = table.magnitude(k);
    let magnitude = whole >> gm;
    SignMagnitude {
        sign: generator_sine::sign(k),
        magnitude,
    }
}

// Twice the low 12 bits of K times GN: the index of a sine. K read unsigned has the same low bits.
fn multiple_index(k: u32, gn: u32) -> u32
    requires { (k < 2 ^ 13) × (gn < 2 ^ 11) }
    ensures { result ≡ 2 * multiple k gn }
{
    2 * (k * gn % 4096)
}

// The sum of cosines: the sine s at twice p over the sine d at K shifted left GM places, p the low 12 bits of K times GN.
// Where s is the larger, the quotient is the most, 4,095; so the cap is on s, before the division, where no test waits for a quotient.
pub fn sum_of_cosines(table: &Quarter, k: u32, gn: u32, gm: u32) -> SignMagnitude
    requires { (k < 2 ^ 13) × (gn < 2 ^ 11) × (gm < 2 ^ 4) }
    ensures { Wave (sum_of_cosines k gn gm) result }
{
    let index = multiple_index(k, gn);
    let s = table.magnitude(index);
    let d = table.magnitude(k);
    let below = d << gm;
    let magnitude = 4095 * s.min(below) / below;
    let sign = (generator_sine::sign(index) + generator_sine::sign(k)) % 2;
    SignMagnitude { sign, magnitude }
}
