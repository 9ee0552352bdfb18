// A generator's turn by the text that its machine follows: each part chooses by it. Elsewhere in a pass's generators a text is only handed on.
#![tactic(auto)]

ghost use Rattle.std.specs.Prelude.{◌≡◌, true, ◌<◌, ◌^◌};
ghost use Rattle.layout_modes.specs.Modes.{switches_of, envelope_on, wait};
ghost use Rattle.generator.specs.Generator.{Ranged};
ghost use Rattle.generator_turn.specs.AsCoded.{run_of, after_of, sounded_by, sends_of, dac_of};

use generator::{Generator, Sounded, Tables};
use layout_modes::Switches;
use layout_texts::Text;

// The turn of a generator whose envelope is on; on is its run mode's switches.
pub fn turn_playing(text: Text, unit: Generator, tables: &Tables, on: Switches, f: u32) -> Sounded
    requires ranged { Ranged unit }
    requires on_value { (on ≡ switches_of (run_of text unit)) × (envelope_on (run_of text unit) ≡ true) }
    requires f_bound { f < 2 ^ 20 }
    ensures { result ≡ sounded_by text unit f }
{
    match text {
        Text::Of1978 => unit.play(tables, on, f),
        Text::Old => generator_old::play(unit, tables, on, f),
    }
}

// The turn of a generator that waits, told whether its lower neighbour has triggered in this pass.
pub fn turn_waiting(text: Text, unit: Generator, f: u32, below: bool) -> Generator
    requires ranged { Ranged unit }
    requires unit_value { (run_of text unit ≡ wait) × (f < 2 ^ 20) }
    ensures { result ≡ after_of text unit f below }
{
    match text {
        Text::Of1978 => unit.await_trigger(f, below),
        Text::Old => generator_old::await_trigger(unit, f, below),
    }
}

// What a generator sends, to a DAC or as a written item.
pub fn sends(text: Text, unit: Generator, f: u32) -> u32
    requires ranged { Ranged unit }
    requires f_bound { f < 2 ^ 20 }
    ensures { result ≡ sends_of text unit f }
{
    match text {
        Text::Of1978 => f,
        Text::Old => generator_old::angle(unit, f),
    }
}

// The number of the DAC to which it sends.
pub fn dac(text: Text, unit: Generator) -> u32
    ensures { (result ≡ dac_of text unit) × (result < 16) }
{
    match text {
        Text::Of1978 => unit.go % 16,
        Text::Old => unit.gn % 16,
    }
}
