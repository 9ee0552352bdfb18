// The wave of a generator of the older text, whose K has 12 bits: one function for each shape.
#![tactic(auto)]

ghost use Rattle.std.specs.Prelude.{◌<◌, ◌^◌};
ghost use Rattle.base_words.specs.Words.{signed};
ghost use Rattle.generator_oscillator.specs.Oscillator.{square, pulse, Wave};
ghost use Rattle.generator_old_waves.specs.OldWaves.{cosine};

use base_words::SignMagnitude;
use generator_sine::Quarter;

// How many bits K has.
const K_BITS: u32 = 12;

// 1,024 with the sign of K.
pub fn square(k: u32) -> SignMagnitude
    requires { k < 2 ^ 12 }
    ensures { Wave (square 12 (signed 12 k)) result }
{
    generator_oscillator::square::<K_BITS>(k)
}

// K itself, at -2,048 too.
pub fn sawtooth(k: u32) -> SignMagnitude
    requires { k < 2 ^ 12 }
    ensures { Wave (signed 12 k) result }
{
    if k < 2048 {
        SignMagnitude {
            sign: 0,
            magnitude: k,
        }
    } else {
        SignMagnitude {
            sign: 1,
            magnitude: 4096 - k,
        }
    }
}

// 1,024 where a signed sum left its range.
pub fn pulse(left: bool) -> SignMagnitude
    ensures { Wave (pulse 12 left) result }
{
    generator_oscillator::pulse::<K_BITS>(left)
}

// The cosine of K, shifted right GM places: a sine of 13 bits without its lowest.
pub fn cosine(table: &Quarter, k: u32, gm: u32) -> SignMagnitude
    requires { (k < 2 ^ 12) × (gm < 2 ^ 4) }
    ensures { Wave (cosine k gm) result }
{
    generator_oscillator::sine_wave(table, (2 * k + 2048) % 8192, 1 + gm)
}
