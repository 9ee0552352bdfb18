// The machine's run of words: a fresh machine, and questions 1 and 2.
#![tactic(auto)]

ghost use Rattle.std.specs.Prelude.{◌≡◌, false, ◌+◌, ◌/◌, ◌%◌, ◌^◌, ◌<◌, ◌&&◌, [], ◌∷◌, get_or};
ghost use Rattle.layout.specs.Machine.{Reaches};
ghost use Rattle.layout.specs.Layout.{generator_words, GMODE, modifier_at, modifier_words, MMODE};
ghost use Rattle.machine_sweep.specs.AsCoded.{every_word, swept, flags_of};
ghost use Rattle.machine.specs.Questions.{question1, question2, valid, good_address, fresh_answer, fresh_run};
ghost use Rattle.machine.specs.AsCoded.{generators_within, functions_built, modifiers_within, controls_within, delays_within, ticks_counted};
ghost use Rattle.base_questions.specs.Questions.{asked};
ghost use Rattle.base_questions.specs.Refusals.{refused};

use base_questions::Refusal;
use layout_texts::Text;

// The limits of one unit, for the four units of a row.
macro_rules! four_units {
    ($($limit:expr,)*) => { [$($limit,)* $($limit,)* $($limit,)* $($limit,)*] };
}

// What the registers of a generator are below, GMODE's limit being the text's, for the four generators of a row.
macro_rules! generator_limits {
    ($gmode:expr) => {
        four_units![
            layout::GO_LIMIT,
            layout::GJ_LIMIT,
            layout::GK_LIMIT,
            layout::GN_LIMIT,
            layout::GM_LIMIT,
            layout::GP_LIMIT,
            layout::GQ_LIMIT,
            layout::GL_LIMIT,
            layout::GSUM_LIMIT,
            layout::GFM_LIMIT,
            $gmode,
        ]
    };
}

const GENERATOR_LIMITS: [u32; 44] = generator_limits!(layout::GMODE_LIMIT);

// The older text's GMODE has 8 bits.
const OLD_GENERATOR_LIMITS: [u32; 44] = generator_limits!(1 << 8);

// What the registers of a modifier are below, for the two modifiers of a row.
const MODIFIER_LIMITS: [u32; 16] = [
    layout::COEFFICIENT_LIMIT, // M0
    layout::COEFFICIENT_LIMIT, // M1
    layout::LATCH_LIMIT, // L0
    layout::LATCH_LIMIT, // L1
    layout::ADDRESS_LIMIT, // MIN
    layout::ADDRESS_LIMIT, // MRM
    layout::MSUM_LIMIT,
    layout::MMODE_LIMIT,
    layout::COEFFICIENT_LIMIT,
    layout::COEFFICIENT_LIMIT,
    layout::LATCH_LIMIT,
    layout::LATCH_LIMIT,
    layout::ADDRESS_LIMIT,
    layout::ADDRESS_LIMIT,
    layout::MSUM_LIMIT,
    layout::MMODE_LIMIT,
];

// What the registers of a delay unit are below, for the four units of a row.
const DELAY_LIMITS: [u32; 28] = four_units![
    layout::DELAY_LIMIT, // X
    layout::DELAY_LIMIT, // Y
    layout::DELAY_LIMIT, // Z
    layout::DELAY_MODE_LIMIT, // P
    layout::WORD_LIMIT, // the word next due
    layout::WORD_LIMIT, // the second
    layout::WORD_LIMIT, // the third
];

// The addresses of a modifier whose top two bits are not 11 are those below.
const ADDRESSES: u32 = 192;

// The built modes of a GMODE of 10 bits, by number: run mode (4 bits), envelope mode (2), oscillator mode (4).
const BUILT_MODES: [bool; 1024] = [
    true, // run mode 0000
    true, true, true, true, false, false, false, true, false, false, false, false, false, false,
    false, true, true, true, true, true, false, false, false, true, false, false, false, false,
    false, false, false, true, true, true, true, true, false, false, false, true, false, false,
    false, false, false, false, false, true, true, true, true, true, false, false, false, true,
    false, false, false, false, false, false, false, true, // run mode 0001
    true, true, true, true, false, false, false, true, false, false, false, false, false, false,
    false, true, true, true, true, true, false, false, false, true, false, false, false, false,
    false, false, false, true, true, true, true, true, false, false, false, true, false, false,
    false, false, false, false, false, true, true, true, true, true, false, false, false, true,
    false, false, false, false, false, false, false, true, // run mode 0010
    true, true, true, true, false, false, false, true, false, false, false, false, false, false,
    false, true, true, true, true, true, false, false, false, true, false, false, false, false,
    false, false, false, true, true, true, true, true, false, false, false, true, false, false,
    false, false, false, false, false, true, true, true, true, true, false, false, false, true,
    false, false, false, false, false, false, false, true, // run mode 0011
    true, true, true, true, false, false, false, true, false, false, false, false, false, false,
    false, true, true, true, true, true, false, false, false, true, false, false, false, false,
    false, false, false, true, true, true, true, true, false, false, false, true, false, false,
    false, false, false, false, false, true, true, true, true, true, false, false, false, true,
    false, false, false, false, false, false, false, false, // run mode 0100
    false, false, false, false, false, false, false, false, false, false, false, false, false,
    false, false, false, false, false, false, false, false, false, false, false, false, false,
    false, false, false, false, false, false, false, false, false, false, false, false, false,
    false, false, false, false, false, false, false, false, false, false, false, false, false,
    false, false, false, false, false, false, false, false, false, false, false, false, // run mode 0101
    false, false, false, false, false, false, false, false, false, false, false, false, false,
    false, false, false, false, false, false, false, false, false, false, false, false, false,
    false, false, false, false, false, false, false, false, false, false, false, false, false,
    false, false, false, false, false, false, false, false, false, false, false, false, false,
    false, false, false, false, false, false, false, false, false, false, false, false, // run mode 0110
    false, false, false, false, false, false, false, false, false, false, false, false, false,
    false, false, false, false, false, false, false, false, false, false, false, false, false,
    false, false, false, false, false, false, false, false, false, false, false, false, false,
    false, false, false, false, false, false, false, false, false, false, false, false, false,
    false, false, false, false, false, false, false, false, false, false, false, true, // run mode 0111
    true, true, true, true, false, false, false, true, false, false, false, false, false, false,
    false, true, true, true, true, true, false, false, false, true, false, false, false, false,
    false, false, false, true, true, true, true, true, false, false, false, true, false, false,
    false, false, false, false, false, true, true, true, true, true, false, false, false, true,
    false, false, false, false, false, false, false, false, // run mode 1000
    false, false, false, false, false, false, false, false, false, false, false, false, false,
    false, false, false, false, false, false, false, false, false, false, false, false, false,
    false, false, false, false, false, false, false, false, false, false, false, false, false,
    false, false, false, false, false, false, false, false, false, false, false, false, false,
    false, false, false, false, false, false, false, false, false, false, false, true, // run mode 1001
    true, true, true, true, false, false, false, true, false, false, false, false, false, false,
    false, true, true, true, true, true, false, false, false, true, false, false, false, false,
    false, false, false, true, true, true, true, true, false, false, false, true, false, false,
    false, false, false, false, false, true, true, true, true, true, false, false, false, true,
    false, false, false, false, false, false, false, false, // run mode 1010
    false, false, false, false, false, false, false, false, false, false, false, false, false,
    false, false, false, false, false, false, false, false, false, false, false, false, false,
    false, false, false, false, false, false, false, false, false, false, false, false, false,
    false, false, false, false, false, false, false, false, false, false, false, false, false,
    false, false, false, false, false, false, false, false, false, false, false, false, // run mode 1011
    false, false, false, false, false, false, false, false, false, false, false, false, false,
    false, false, false, false, false, false, false, false, false, false, false, false, false,
    false, false, false, false, false, false, false, false, false, false, false, false, false,
    false, false, false, false, false, false, false, false, false, false, false, false, false,
    false, false, false, false, false, false, false, false, false, false, false, false, // run mode 1100
    false, false, false, false, false, false, false, false, false, false, false, false, false,
    false, false, false, false, false, false, false, false, false, false, false, false, false,
    false, false, false, false, false, false, false, false, false, false, false, false, false,
    false, false, false, false, false, false, false, false, false, false, false, false, false,
    false, false, false, false, false, false, false, false, false, false, false, true, // run mode 1101
    true, true, true, true, false, false, false, true, false, false, false, false, false, false,
    false, true, true, true, true, true, false, false, false, true, false, false, false, false,
    false, false, false, true, true, true, true, true, false, false, false, true, false, false,
    false, false, false, false, false, true, true, true, true, true, false, false, false, true,
    false, false, false, false, false, false, false, true, // run mode 1110
    true, true, true, true, false, false, false, true, false, false, false, false, false, false,
    false, true, true, true, true, true, false, false, false, true, false, false, false, false,
    false, false, false, true, true, true, true, true, false, false, false, true, false, false,
    false, false, false, false, false, true, true, true, true, true, false, false, false, true,
    false, false, false, false, false, false, false, true, // run mode 1111
    true, true, true, true, false, false, false, true, false, false, false, false, false, false,
    false, true, true, true, true, true, false, false, false, true, false, false, false, false,
    false, false, false, true, true, true, true, true, false, false, false, true, false, false,
    false, false, false, false, false, true, true, true, true, true, false, false, false, true,
    false, false, false, false, false, false, false,
];

// The same by the older text, of 8 bits: run mode (3 bits), envelope mode (2), oscillator mode (3).
const OLD_BUILT_MODES: [bool; 256] = [
    true, // run mode 000
    true, true, true, true, true, false, false, true, true, true, true, true, true, false, false,
    true, true, true, true, true, true, false, false, true, true, true, true, true, true, false,
    false, false, // run mode 001
    true, true, true, true, true, false, false, false, true, true, true, true, true, false, false,
    false, true, true, true, true, true, false, false, false, true, true, true, true, true, false,
    false, false, // run mode 010
    true, true, true, true, true, false, false, false, true, true, true, true, true, false, false,
    false, true, true, true, true, true, false, false, false, true, true, true, true, true, false,
    false, false, // run mode 011
    true, true, true, true, true, false, false, false, true, true, true, true, true, false, false,
    false, true, true, true, true, true, false, false, false, true, true, true, true, true, false,
    false, false, // run mode 100
    true, true, true, true, true, false, false, false, true, true, true, true, true, false, false,
    false, true, true, true, true, true, false, false, false, true, true, true, true, true, false,
    false, false, // run mode 101
    true, true, true, true, true, false, false, false, true, true, true, true, true, false, false,
    false, true, true, true, true, true, false, false, false, true, true, true, true, true, false,
    false, false, // run mode 110
    true, true, true, true, true, false, false, false, true, true, true, true, true, false, false,
    false, true, true, true, true, true, false, false, false, true, true, true, true, true, false,
    false, false, // run mode 111
    true, true, true, true, true, false, false, false, true, true, true, true, true, false, false,
    false, true, true, true, true, true, false, false, false, true, true, true, true, true, false,
    false,
];

// Eight bits, the top two not 11.
pub fn built_address(address: u32) -> bool
    ensures { result ≡ good_address address }
{
    address < ADDRESSES
}

// All generators' words below the limits of a row, with modes that have flags.
fn generators_by<const N: usize>(limits: &[u32; 44], built: &[bool; N], m: &[u32]) -> bool
    requires some { 0 < N }
    requires reaches { Reaches m.now }
    ensures { result ≡ (swept limits.now m.now 0 8 && every_word (λ x. get_or built.now (x / 2 ^ 0 % N) false) m.now GMODE generator_words 0 256) }
{
    let at = layout::GMODE;
    let n = layout::GENERATORS;
    machine_sweep::swept(limits, m, 0, 8)
        & machine_sweep::flagged(built, m, at, layout::GENERATOR_WORDS, n, 0)
}

// All generators' words within their widths, with built modes.
fn generators_within(text: Text, m: &[u32]) -> bool
    requires { Reaches m.now }
    ensures { result ≡ generators_within text m.now }
{
    match text {
        Text::Of1978 => generators_by(&GENERATOR_LIMITS, &BUILT_MODES, m),
        Text::Old => generators_by(&OLD_GENERATOR_LIMITS, &OLD_BUILT_MODES, m),
    }
}

// All modifiers' functions those of a mask: bit f is 1 where function f is one.
fn functions_by(mask: u32, m: &[u32]) -> bool
    requires { Reaches m.now }
    ensures { result ≡ every_word (λ x. get_or (flags_of mask 32) (x / 2 ^ 4 % 32) false) m.now (modifier_at 0 + MMODE) modifier_words 0 128 }
{
    let functions = machine_sweep::flags::<32>(mask);
    let at = layout::MODIFIERS_AT + layout::MMODE;
    let n = layout::MODIFIERS;
    machine_sweep::flagged(&functions, m, at, layout::MODIFIER_WORDS, n, 4)
}

// All modifiers' functions built.
fn functions_built(text: Text, m: &[u32]) -> bool
    requires { Reaches m.now }
    ensures { result ≡ functions_built text m.now }
{
    match text {
        Text::Of1978 => functions_by(layout_codes::BUILT_FUNCTION, m),
        Text::Old => functions_by(layout_codes::OLD_BUILT_FUNCTION, m),
    }
}

// All modifiers' words within their widths, with built functions and no MIN or MRM top bits 11.
fn modifiers_within(text: Text, m: &[u32]) -> bool
    requires { Reaches m.now }
    ensures { result ≡ modifiers_within text m.now }
{
    let at = layout::MODIFIERS_AT;
    let n = layout::MODIFIERS;
    let step = layout::MODIFIER_WORDS;
    machine_sweep::swept(&MODIFIER_LIMITS, m, at, 8)
        & machine_sweep::words_below(m, at + layout::MIN, step, n, ADDRESSES)
        & machine_sweep::words_below(m, at + layout::MRM, step, n, ADDRESSES)
        & functions_built(text, m)
}

// DX, T, N, the pass counter, lingering, the Linger pass and overrun within their ranges. The counter has all bits of its word: every word is within its range.
fn controls_within(m: &[u32]) -> bool
    requires { Reaches m.now }
    ensures { result ≡ controls_within m.now }
{
    let dx = m[layout::DX_AT];
    let t = m[layout::T_AT];
    let n = m[layout::N_AT];
    let lingering = m[layout::LINGERING_AT];
    let pass = m[layout::LINGER_PASS_AT];
    let overrun = m[layout::OVERRUN_AT];
    (dx < layout::WORD_LIMIT)
        & ((1 <= t) & (t <= 256))
        & ((2 <= n) & (n <= 1025))
        & (lingering <= 1)
        & (pass < layout::LINGER_LIMIT)
        & (overrun <= 1)
}

// All delay units' words within their widths, with built modes.
fn delays_within(m: &[u32]) -> bool
    requires { Reaches m.now }
    ensures { result ≡ delays_within m.now }
{
    let built = machine_sweep::flags::<16>(layout_codes::BUILT_MODE);
    let at = layout::DELAYS_AT;
    let n = layout::DELAYS;
    let step = layout::DELAY_WORDS;
    machine_sweep::swept(&DELAY_LIMITS, m, at, 1)
        & machine_sweep::flagged(&built, m, at + layout::DELAY_P, step, n, 0)
}

// The update ticks are those of T and N.
fn ticks_counted(m: &[u32]) -> bool
    requires { Reaches m.now }
    ensures { result ≡ ticks_counted m.now }
{
    let count = m[layout::UPDATE_TICKS_AT];
    let t = m[layout::T_AT];
    let n = m[layout::N_AT];
    count == layout::update_ticks(t, n)
}

// Question 2: all words within their width and range, with built modes and no MIN or MRM top bits 11, and the update ticks those of T and N.
pub fn valid(text: Text, m: &[u32]) -> bool
    requires { Reaches m.now }
    ensures { result ≡ valid text m.now }
{
    let sums = machine_sweep::words_below(
        m,
        layout::SUMS_AT,
        1,
        layout::SUM_WORDS,
        layout::WORD_LIMIT,
    );
    let dacs = machine_sweep::words_below(m, layout::DACS_AT, 1, layout::DACS, layout::WORD_LIMIT);
    generators_within(text, m)
        & modifiers_within(text, m)
        & sums
        & dacs
        & controls_within(m)
        & delays_within(m)
        & ticks_counted(m)
}

// The first of questions 1 and 2 that is answered no, if one is.
pub fn refusal(text: Text, m: &[u32]) -> Result<(), Refusal>
    ensures { refused result ≡ asked (question1 m.now ∷ question2 text m.now ∷ []) }
{
    if m.len() != layout::MACHINE_LENGTH {
        return Err(Refusal::MachineLength);
    }
    if !valid(text, m) {
        return Err(Refusal::MachineWords);
    }
    Ok(())
}

// A fresh machine: zero but for T = 1, N = 265 and the update ticks, 256. A run of another length is left as it is, and question 1 named.
pub fn fresh(m: &mut [u32]) -> Result<(), Refusal>
    ensures value { refused result ≡ fresh_answer m.old }
    ensures m_after { m.new ≡ fresh_run m.old }
{
    let words = m.len();
    if words != layout::MACHINE_LENGTH {
        return Err(Refusal::MachineLength);
    }
    m.fill(0);
    m[layout::T_AT] = 1;
    m[layout::N_AT] = 265;
    m[layout::UPDATE_TICKS_AT] = 256;
    Ok(())
}
