// The test program over the proved leaves. A request is 16 words, and so is its answer; requests follow one another until the input ends.
// Word 0 is the operation: 0 sine, 1 exponential, 2 products, 3 a generator's turn, 4 a modifier's turn, 5 whether modes are built, 6 sums, 7 a modifier's turn by the older text, 8 a generator's turn by the older text.
#![tactic(auto)]

ghost use Rattle.std.specs.Prelude.{◌≡◌, true, ◌+◌, ◌*◌, ◌≤◌, ◌<◌, ◌^◌, length};
ghost use Rattle.layout_modes.specs.Modes.{switches_of, envelope_on};
ghost use Rattle.generator.specs.Generator.{Ranged, run_mode};
ghost use Rattle.modifier.specs.Modifier.{Ranged as InRange};

use generator::{Generator, Sounded, Tables};
use generator_exponential::Entries;
use generator_sine::Quarter;
use layout_modes::Switches;
use modifier::{Modifier, Turned};
use modifier_product::Product;

// An answer: the words given, and zeros after them.
fn answered<const N: usize>(words: [u32; N]) -> [u32; 16]
    requires { N ≤ 16 }
{
    let mut r = [0u32; 16];
    r[..N].copy_from_slice(&words);
    r
}

// The sign of the sine of k, 1 where it is negative, and its magnitude.
fn sine_of(x: &[u32; 16], sine: &Quarter) -> [u32; 16] {
    let k = x[1] % 8192;
    answered([generator_sine::sign(k), sine.magnitude(k)])
}

// The exponential of the high bits of GQ.
fn exponential_of(x: &[u32; 16], decay: &Entries) -> [u32; 16] {
    answered([decay.exponential(x[1] % 16777216)])
}

// The product and the integer product of a and b at scale s.
fn products(x: &[u32; 16]) -> [u32; 16] {
    let s = x[1] % 4;
    let a = x[2] % 1048576;
    let b = x[3] % 1048576;
    answered([
        modifier_product::multiply(Product::Rounded, s, a, b),
        modifier_product::multiply(Product::Integer, s, a, b),
    ])
}

// The generator whose eleven words follow the operation.
fn generator_of(x: &[u32]) -> Generator
    requires { 12 ≤ length x.now }
    ensures { Ranged result }
{
    Generator::load(&x[1..])
}

// A generator's eleven words.
fn registers(unit: Generator) -> [u32; 16] {
    answered([
        unit.go, unit.gj, unit.gk, unit.gn, unit.gm, unit.gp, unit.gq, unit.gl, unit.gsum,
        unit.gfm, unit.gmode,
    ])
}

// What a generator whose envelope is on brings: its words afterwards, P, and whether it triggers.
fn contribution(after: Sounded) -> [u32; 16] {
    let mut r = registers(after.unit);
    r[11] = after.p;
    r[12] = u32::from(after.triggers);
    r
}

// The turn of a generator whose envelope is on.
fn sounded(unit: Generator, on: Switches, f: u32, tables: &Tables) -> [u32; 16]
    requires ranged { Ranged unit }
    requires f_bound { f < 2 ^ 20 }
    requires on_value { (on ≡ switches_of (run_mode unit)) × (envelope_on (run_mode unit) ≡ true) }
{
    contribution(unit.play(tables, on, f))
}

// A generator's turn with F, told whether its lower neighbour has triggered.
fn generator_turn(x: &[u32; 16], tables: &Tables) -> [u32; 16] {
    let unit = generator_of(x);
    let run = unit.gmode / 64;
    let on = tables.switches.switches_of(run);
    let f = x[12] % 1048576;
    if on.envelope {
        sounded(unit, on, f, tables)
    } else if run == layout_modes::WAIT {
        registers(unit.await_trigger(f, x[13] % 2 == 1))
    } else {
        registers(unit)
    }
}

// The same turn by the older text. Of a generator with nothing on word 13 is its angle, which 111 sends.
fn old_generator_turn(x: &[u32; 16], tables: &Tables) -> [u32; 16] {
    let unit = generator_of(x);
    let run = layout_old_modes::run_mode(unit.gmode, unit.gn);
    let on = tables.switches.switches_of(run);
    let f = x[12] % 1048576;
    if on.envelope {
        return contribution(generator_old::play(unit, tables, on, f));
    }
    if run == layout_modes::WAIT {
        return registers(generator_old::await_trigger(unit, f, x[13] % 2 == 1));
    }
    let mut r = registers(unit);
    r[13] = generator_old::angle(unit, f);
    r
}

// The modifier whose eight words follow the operation.
fn modifier_of(x: &[u32]) -> Modifier
    requires { 9 ≤ length x.now }
    ensures { InRange result }
{
    Modifier::load(&x[1..])
}

// What a turn gives: a modifier's words afterwards, and S.
fn turned_words(turned: Turned) -> [u32; 16] {
    let unit = turned.unit;
    answered([
        unit.m0, unit.m1, unit.l0, unit.l1, unit.min, unit.mrm, unit.msum, unit.mmode, turned.s,
    ])
}

// A modifier's turn with A and B.
fn modifier_turn(x: &[u32; 16]) -> [u32; 16] {
    turned_words(modifier_turn::turn(modifier_of(x), x[9] % 1048576, x[10] % 1048576))
}

// The same by the older text, whether its function reads A late, and whether it is built.
fn old_modifier_turn(x: &[u32; 16]) -> [u32; 16] {
    let f = x[8] / 16 % 32;
    let mut r = turned_words(modifier_old::turn(modifier_of(x), x[9] % 1048576, x[10] % 1048576));
    r[9] = u32::from(modifier_old::reads_late(f));
    r[10] = u32::from(layout_codes::old_built_function(f));
    r
}

// Whether the run mode and the oscillator mode of a GMODE and the function of an MMODE are built.
fn built(x: &[u32; 16]) -> [u32; 16] {
    answered([
        u32::from(layout_modes::built_run(x[1] / 64 % 16)),
        u32::from(layout_modes::built_oscillator(x[1] % 16)),
        u32::from(layout_codes::built_function(x[2] / 16 % 32)),
    ])
}

// Two words of 20 bits added, and one of them added into GQ; whether each sum leaves its range.
fn sums(x: &[u32; 16]) -> [u32; 16] {
    let a = x[1] % 1048576;
    let b = x[2] % 1048576;
    let gq = x[3] % 16777216;
    answered([
        base_words::add::<20>(a, b),
        u32::from(base_words::leaves_range::<20>(a, b)),
        base_words::into::<24>(gq, a),
        u32::from(base_words::outside_range::<24>(gq, a)),
    ])
}

// The answer to a request.
fn answer(x: &[u32; 16], tables: &Tables) -> [u32; 16] {
    match x[0] {
        0 => sine_of(x, &tables.sine),
        1 => exponential_of(x, &tables.decay),
        2 => products(x),
        3 => generator_turn(x, tables),
        4 => modifier_turn(x),
        5 => built(x),
        6 => sums(x),
        7 => old_modifier_turn(x),
        8 => old_generator_turn(x, tables),
        _ => [0u32; 16],
    }
}

// The words of request n.
fn request_at(input: &[u8], n: usize) -> [u32; 16]
    requires { 64 * n + 64 ≤ length input.now }
{
    let mut x = [0u32; 16];
    for (i, word) in x.iter_mut().enumerate() {
        *word = trial_octets::word_at(input, 16 * n + i);
    }
    x
}

// The words of answer n are written.
fn put_answer_at(output: &mut [u8], n: usize, r: &[u32; 16])
    requires { 64 * n + 64 ≤ length output.old }
{
    for (i, word) in r.iter().enumerate() {
        trial_octets::put_word_at(output, 16 * n + i, *word);
    }
}

// Request n is answered.
fn answer_at(input: &[u8], output: &mut [u8], n: usize, tables: &Tables)
    requires n_in_bounds { (64 * n + 64 ≤ length input.now) × (64 * n + 64 ≤ length output.old) }
{
    let x = request_at(input, n);
    let r = answer(&x, tables);
    put_answer_at(output, n, &r);
}

// The first requests of a run of bytes are answered, count of them.
fn answer_all(input: &[u8], output: &mut [u8], count: usize, tables: &Tables)
    requires count_in_bounds { (64 * count ≤ length input.now) × (64 * count ≤ length output.old) }
{
    for n in 0..count {
        answer_at(input, output, n, tables);
    }
}

// Reads requests, answers them, and says whether there may be more.
fn answer_some(rt: HostRuntime, tables: &Tables) -> bool {
    let mut input = [0u8; 65536];
    let mut output = [0u8; 65536];
    let n = trial_octets::read_full(&mut rt.stdin(), &mut input);
    let count = n / 64;
    answer_all(&input, &mut output, count, tables);
    let written = rt.write_all(&output[..64 * count]).is_ok();
    written && n == 65536
}

// A proved loop has to end, so the turns are as many as no input uses up.
fn main(rt: HostRuntime) {
    let tables = Tables::new();
    for _ in 0..u64::MAX {
        if !answer_some(rt, &tables) {
            break;
        }
    }
}
