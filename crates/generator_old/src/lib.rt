// The turn of a generator of the older text. Its registers, and steps 1, 2, 4 and 7, are the 1978 text's.
#![tactic(auto)]

ghost use Rattle.std.specs.Prelude.{◌/◌, ◌<◌, ◌^◌, ◌≡◌, true};
ghost use Rattle.base_words.specs.Words.{signed};
ghost use Rattle.layout_modes.specs.Modes.{switches_of, envelope_on, wait};
ghost use Rattle.generator_oscillator.specs.Oscillator.{Wave};
ghost use Rattle.generator_old_waves.specs.OldWaves.{old_wave};
ghost use Rattle.generator.specs.Generator.{updated, Ranged};
ghost use Rattle.generator.specs.AsCoded.{left_by};
ghost use Rattle.layout_old_modes.specs.OldModes.{old_oscillator};
ghost use Rattle.generator_old.specs.OldGenerator.{switched_mode, e_of, old_level, with_old_run, old_after, old_sounded};
ghost use Rattle.generator_old.specs.AsCoded.{e_by, old_output_by, old_ended_of};

use base_words::SignMagnitude;
use generator::{Generator, Sounded, Tables};
use generator_exponential::Entries;
use generator_sine::Quarter;
use layout_modes::Switches;

// Wait, and running with triggers until it stops.
const WAIT: u32 = 0b100;

const RUNNING_C: u32 = 0b101;

// Step 3: E, of J.
#[tactic(auto, unfolding(crate::specs::AsCoded::e_by))]
fn angle_by(unit: Generator, j: u32) -> u32
    ensures { result ≡ e_by unit j }
{
    if unit.gmode % 8 == 0b101 { j } else { unit.gk }
}

// Step 5: what 111 sends, its own angle E.
pub fn angle(unit: Generator, f: u32) -> u32
    requires ranged { Ranged unit }
    requires f_bound { f < 2 ^ 20 }
    ensures { result ≡ e_of unit f }
{
    let j = base_words::low::<20>(unit.phase(f));
    angle_by(unit, j)
}

// Step 6: W, of the exact sum of step 1, J and whether the oscillator is on. K is the high 12 bits of E.
fn wave(unit: Generator, sine: &Quarter, on: bool, exact: u32, j: u32) -> SignMagnitude
    requires ranged { Ranged unit }
    requires j_bound { j < 2 ^ 20 }
    ensures { Wave (old_wave (old_oscillator unit.gmode) (e_by unit j / 2 ^ 8) unit.gm (left_by on unit (signed 32 exact) j)) result }
{
    let k = angle_by(unit, j) / 256;
    let mode = unit.gmode % 8;
    match mode {
        0b001 => generator_old_waves::square(k),
        0b010 => generator_old_waves::sawtooth(k),
        0b011 => generator_old_waves::pulse(unit.left_range(on, exact, j)),
        _ => generator_old_waves::cosine(sine, k, unit.gm),
    }
}

// Step 8: V. Q of GQ without its low 12 bits has the exponential of 256 entries: entry f of them is entry 4f of the table.
fn level(decay: &Entries, mode: u32, gl: u32, gq: u32) -> u32
    requires { (gl < 2 ^ 12) × (gq < 2 ^ 24) }
    ensures { result ≡ old_level mode gl gq }
{
    let q = generator_envelope::q(decay, mode, gq / 4096 * 4096);
    generator_envelope::level_by(mode % 2 == 0, gl, q)
}

// Steps 3 and 6 to 9: P, of the exact sum of step 1, J and whether the oscillator is on.
fn output(unit: Generator, tables: &Tables, on: bool, exact: u32, j: u32) -> u32
    requires ranged { Ranged unit }
    requires j_bound { j < 2 ^ 20 }
    ensures { result ≡ old_output_by on unit (signed 32 exact) j }
{
    let v = level(&tables.decay, unit.gmode / 8 % 4, unit.gl, unit.gq);
    let w = wave(unit, &tables.sine, on, exact, j);
    generator_envelope::enveloped(w, v)
}

// Another run mode, the other bits of GMODE kept.
fn with_run(mut unit: Generator, run: u32) -> Generator
    requires { run < 2 ^ 3 }
    ensures { result ≡ updated unit unit.gj unit.gk unit.gq (with_old_run run unit.gmode) }
{
    unit.gmode = run * 32 + unit.gmode % 32;
    unit
}

// 101 goes to 100.
#[tactic(auto, unfolding(crate::specs::AsCoded::old_ended_of))]
fn ended(unit: Generator) -> Generator
    ensures { result ≡ old_ended_of unit }
{
    if unit.gmode / 32 % 8 == RUNNING_C {
        with_run(unit, WAIT)
    } else {
        unit
    }
}

// The turn of a generator whose envelope is on; on is its run mode's switches.
pub fn play(unit: Generator, tables: &Tables, on: Switches, f: u32) -> Sounded
    requires ranged { Ranged unit }
    requires on_value { (on ≡ switches_of (switched_mode unit)) × (envelope_on (switched_mode unit) ≡ true) }
    requires f_bound { f < 2 ^ 20 }
    ensures { result ≡ old_sounded unit f }
{
    let exact = unit.phase(f);
    let j = base_words::low::<20>(exact);
    let p = output(unit, tables, on.oscillator, exact, j);
    let sounded = unit.advance(on, j, p);
    if sounded.triggers {
        Sounded {
            unit: ended(sounded.unit),
            ..sounded
        }
    } else {
        sounded
    }
}

// The turn of a generator in 100, told whether its lower neighbour has triggered in this pass.
pub fn await_trigger(unit: Generator, f: u32, below: bool) -> Generator
    requires ranged { Ranged unit }
    requires unit_value { (switched_mode unit ≡ wait) × (f < 2 ^ 20) }
    ensures { result ≡ old_after unit f below }
{
    let j = base_words::low::<20>(unit.phase(f));
    let turned = unit.oscillate(true, j);
    if below {
        with_run(turned, RUNNING_C)
    } else {
        turned
    }
}
