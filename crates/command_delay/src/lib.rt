// DLY: the command that loads registers of a delay unit, and whether it is built.
#![tactic(auto)]

ghost use Rattle.std.specs.Prelude.{◌≡◌};
ghost use Rattle.layout.specs.Machine.{Reaches};
ghost use Rattle.command_delay.specs.DelayLoads.{built_dly, loaded_dly};

use command_fields::field;
use layout::{DELAY_P, DELAY_X, DELAY_Y, DELAY_Z};

// DLY: UU 00 loads X and clears Y, 01 loads Y with the one's complement of the data, 10 loads Z and P.
pub fn load(m: &mut [u32], c: u32)
    requires { Reaches m.old }
    ensures { m.new ≡ loaded_dly m.old c }
{
    let u = layout::DELAYS_AT + layout::DELAY_WORDS * field(c, 31, 35) as usize;
    let data = field(c, 4, 19);
    match field(c, 29, 30) {
        0b00 => {
            m[u + DELAY_X] = data;
            m[u + DELAY_Y] = 0;
        }
        0b01 => {
            m[u + DELAY_Y] = layout::DELAY_LIMIT - 1 - data;
        }
        0b10 => {
            m[u + DELAY_Z] = data;
            m[u + DELAY_P] = field(c, 20, 23);
        }
        _ => {}
    }
}

// DLY is built but with UU 11, and with UU 10 where the mode is not built.
pub fn built_dly(c: u32) -> bool
    ensures { result ≡ built_dly c }
{
    match field(c, 29, 30) {
        0b11 => false,
        0b10 => layout_codes::built_mode(field(c, 20, 23)),
        _ => true,
    }
}
