// The commands that load registers of a generator.
#![tactic(auto)]

ghost use Rattle.std.specs.Prelude.{◌≡◌, ◌+◌, ◌<◌};
ghost use Rattle.layout.specs.Layout.{generator_at, modifier_at, GMODE};
ghost use Rattle.layout.specs.Machine.{Reaches};
ghost use Rattle.command_fields.specs.Fields.{generator_number};
ghost use Rattle.command_generator.specs.GeneratorLoads.{after_generator_load};

use command_fields::field;
use command_load::{load_adjusted, load_data, load_then_clear, load_two};
use layout::{GFM, GJ, GK, GL, GM, GMODE, GN, GO, GP, GQ, GSUM};

// Where the generator stands that a command addresses.
fn generator_at(c: u32) -> usize
    ensures { (result ≡ generator_at (generator_number c)) × (result + GMODE < modifier_at 0) }
{
    layout::GENERATOR_WORDS * field(c, 28, 35) as usize
}

// The load of a generator's registers by the code. Other commands leave the machine.
pub fn load(m: &mut [u32], c: u32)
    requires { Reaches m.old }
    ensures { m.new ≡ after_generator_load m.old c }
{
    let g = generator_at(c);
    match field(c, 24, 27) {
        0b0010 | 0b0011 => load_adjusted(m, c, g + GQ, 24),
        0b0100 | 0b0101 => load_adjusted(m, c, g + GJ, 28),
        0b0110 => load_data(m, c, g + GP),
        0b0111 => load_two(m, c, g + GN, field(c, 9, 19), g + GM, field(c, 20, 23)),
        0b1000 => load_two(m, c, g + GL, field(c, 6, 17), g + GSUM, field(c, 18, 23)),
        0b1001 => load_data(m, c, g + GK),
        0b1010 => load_then_clear(
            m,
            c,
            g + GMODE,
            field(c, 7, 16),
            g + GFM,
            field(c, 17, 23),
            g + GK,
        ),
        0b1011 => load_data(m, c, g + GO),
        _ => {}
    }
}
