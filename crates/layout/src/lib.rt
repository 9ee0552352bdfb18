// Where each word of the machine stands: the layout's numbers, each with its one name; and what stands at the places that several calls look at.
#![tactic(auto)]

ghost use Rattle.std.specs.Prelude.{◌≡◌, ◌+◌, ◌%◌, ◌^◌, ◌<◌};
ghost use Rattle.layout.specs.Machine.{Reaches, ticks_of, update_ticks, gsum_at, gfm_at};
ghost use Rattle.layout.specs.Widths.{counter_bits};

// The length of the machine's run of words.
pub const MACHINE_LENGTH: usize = 4344;

// The number of its places that a bench file can name: all but the last, which holds the update ticks.
pub const FILE_PLACES: usize = 4343;

// Generator g, below GENERATORS, has the GENERATOR_WORDS words from GENERATOR_WORDS * g, in this sequence.
pub const GENERATORS: usize = 256;

pub const GENERATOR_WORDS: usize = 11;

pub const GO: usize = 0;

pub const GJ: usize = 1;

pub const GK: usize = 2;

pub const GN: usize = 3;

pub const GM: usize = 4;

pub const GP: usize = 5;

pub const GQ: usize = 6;

pub const GL: usize = 7;

pub const GSUM: usize = 8;

pub const GFM: usize = 9;

pub const GMODE: usize = 10;

// One more than the largest value of each register of a generator.
pub const GO_LIMIT: u32 = 1 << 20;

pub const GJ_LIMIT: u32 = 1 << 28;

pub const GK_LIMIT: u32 = 1 << 20;

pub const GN_LIMIT: u32 = 1 << 11;

pub const GM_LIMIT: u32 = 1 << 4;

pub const GP_LIMIT: u32 = 1 << 20;

pub const GQ_LIMIT: u32 = 1 << 24;

pub const GL_LIMIT: u32 = 1 << 12;

pub const GSUM_LIMIT: u32 = 1 << 6;

pub const GFM_LIMIT: u32 = 1 << 7;

pub const GMODE_LIMIT: u32 = 1 << 10;

// Modifier m, below MODIFIERS, has the MODIFIER_WORDS words from MODIFIERS_AT + MODIFIER_WORDS * m, in this sequence.
pub const MODIFIERS_AT: usize = 2816;

pub const MODIFIERS: usize = 128;

pub const MODIFIER_WORDS: usize = 8;

pub const M0: usize = 0;

pub const M1: usize = 1;

pub const L0: usize = 2;

pub const L1: usize = 3;

pub const MIN: usize = 4;

pub const MRM: usize = 5;

pub const MSUM: usize = 6;

pub const MMODE: usize = 7;

// One more than the largest value of each register of a modifier: M0 and M1, L0 and L1, MIN and MRM, MSUM, MMODE.
pub const COEFFICIENT_LIMIT: u32 = 1 << 30;

pub const LATCH_LIMIT: u32 = 1 << 20;

pub const ADDRESS_LIMIT: u32 = 1 << 8;

pub const MSUM_LIMIT: u32 = 1 << 7;

pub const MMODE_LIMIT: u32 = 1 << 9;

// Sum memory: QUADRANTS quadrants of QUADRANT_WORDS words, generator-this-pass, generator-last, modifier-this, modifier-last.
pub const SUMS_AT: usize = 3840;

pub const QUADRANTS: usize = 4;

pub const QUADRANT_WORDS: usize = 64;

pub const SUM_WORDS: usize = 256;

pub const GENERATOR_THIS_AT: usize = 3840;

pub const GENERATOR_LAST_AT: usize = 3904;

pub const MODIFIER_THIS_AT: usize = 3968;

pub const MODIFIER_LAST_AT: usize = 4032;

// The DAC words.
pub const DACS_AT: usize = 4096;

pub const DACS: usize = 16;

// One more than the largest value of a word of sum memory, of a DAC and of DX, and of the pass that a Linger names. The pass counter has all bits of its word, and so no such number.
pub const WORD_LIMIT: u32 = 1 << 20;

pub const LINGER_LIMIT: u32 = 1 << 20;

// DX; T, the processing ticks; N, all ticks of a pass; the pass counter; lingering; the Linger pass; overrun.
pub const DX_AT: usize = 4112;

pub const T_AT: usize = 4113;

pub const N_AT: usize = 4114;

pub const COUNTER_AT: usize = 4115;

pub const LINGERING_AT: usize = 4116;

pub const LINGER_PASS_AT: usize = 4117;

pub const OVERRUN_AT: usize = 4118;

// Delay unit u, below DELAYS, has the DELAY_WORDS words from DELAYS_AT + DELAY_WORDS * u, in this sequence: X, Y, Z, P, and three words on their way to the modifier, next due first.
pub const DELAYS_AT: usize = 4119;

pub const DELAYS: usize = 32;

pub const DELAY_WORDS: usize = 7;

pub const DELAY_X: usize = 0;

pub const DELAY_Y: usize = 1;

pub const DELAY_Z: usize = 2;

pub const DELAY_P: usize = 3;

pub const DELAY_FIRST: usize = 4;

pub const DELAY_SECOND: usize = 5;

pub const DELAY_THIRD: usize = 6;

// One more than the largest value of X, Y and Z, and of P.
pub const DELAY_LIMIT: u32 = 1 << 16;

pub const DELAY_MODE_LIMIT: u32 = 1 << 4;

// The update ticks: how many commands fit in a pass.
pub const UPDATE_TICKS_AT: usize = 4343;

// The words of delay memory.
pub const MEMORY_WORDS: usize = 65536;

// A word as an index.
pub fn wide(x: u32) -> usize
    ensures { result ≡ x }
{
    x as usize
}

// T of the machine.
pub fn ticks(m: &[u32]) -> usize
    requires { Reaches m.now }
    ensures { result ≡ ticks_of m.now }
{
    wide(m[T_AT])
}

// The update ticks of T and N, any two words: N-T-8, or 0 if that is negative.
pub fn update_ticks(t: u32, n: u32) -> u32
    ensures { result ≡ update_ticks t n }
{
    let busy = wide(t) + 8;
    if wide(n) < busy {
        return 0;
    }
    n - t - 8
}

// The pass counter after a pass: after the largest number comes 0.
pub fn next_pass(counter: u32) -> u32
    ensures { result ≡ (counter + 1) % 2 ^ counter_bits }
{
    counter.wrapping_add(1)
}

// GFM of generator g.
pub fn gfm(m: &[u32], g: usize) -> u32
    requires reaches { Reaches m.now }
    requires g_bound { g < 256 }
    ensures { result ≡ gfm_at m.now g }
{
    m[GENERATOR_WORDS * g + GFM]
}

// GSUM of generator g.
pub fn gsum(m: &[u32], g: usize) -> usize
    requires reaches { Reaches m.now }
    requires g_bound { g < 256 }
    ensures { result ≡ gsum_at m.now g }
{
    wide(m[GENERATOR_WORDS * g + GSUM])
}
