// The commands that load registers of a modifier.
#![tactic(auto)]

ghost use Rattle.std.specs.Prelude.{◌≡◌, cond, ◌+◌, ◌<◌, length, get_or, set};
ghost use Rattle.layout.specs.Layout.{modifier_at, quadrant_at, MMODE};
ghost use Rattle.layout.specs.Machine.{Reaches};
ghost use Rattle.command_fields.specs.Fields.{modifier_number};
ghost use Rattle.command_modifier.specs.ModifierLoads.{mmode_by, loaded_mmode, after_modifier_load};

use command_fields::{field, flag};
use command_load::{clear_if, load_adjusted, load_data, load_then_clear, load_unless};
use layout::{L0, L1, M0, M1, MIN, MMODE, MRM, MSUM};

// Where the modifier stands that a command addresses. A generator's place differs by more than a number: its base is 0, its number has a bit more.
fn modifier_at(c: u32) -> usize
    ensures { (result ≡ modifier_at (modifier_number c)) × (result + MMODE < quadrant_at 0) }
{
    layout::MODIFIERS_AT + layout::MODIFIER_WORDS * field(c, 29, 35) as usize
}

// The first of two numbers, or the second.
fn chosen(first: bool, a: u32, b: u32) -> u32
    ensures { result ≡ cond first a b }
{
    if first { a } else { b }
}

// MMODE is loaded, its function unless M and its scales unless H.
fn load_mmode(m: &mut [u32], c: u32, at: usize)
    requires { at < length m.old }
    ensures { m.new ≡ set m.old at (mmode_by (get_or m.old at 0) c) }
{
    let mmode = m[at];
    let function = chosen(flag(c, 4), mmode / 16, field(c, 8, 12));
    let scales = chosen(flag(c, 7), mmode % 16, field(c, 13, 16));
    m[at] = function * 16 + scales;
}

// MMODE so, MSUM unless S; C clears L0.
fn load_mmode_msum(m: &mut [u32], c: u32)
    requires { Reaches m.old }
    ensures { m.new ≡ loaded_mmode m.old c }
{
    let u = modifier_at(c);
    load_mmode(m, c, u + MMODE);
    load_unless(m, flag(c, 5), u + MSUM, field(c, 17, 23));
    clear_if(m, flag(c, 6), u + L0);
}

// The load of a modifier's registers by the code. Other commands leave the machine.
pub fn load(m: &mut [u32], c: u32)
    requires { Reaches m.old }
    ensures { m.new ≡ after_modifier_load m.old c }
{
    let u = modifier_at(c);
    match field(c, 24, 28) {
        0b11000 | 0b11010 => load_adjusted(m, c, u + M0, 30),
        0b11001 | 0b11011 => load_adjusted(m, c, u + M1, 30),
        0b11100 => load_data(m, c, u + L0),
        0b11101 => load_data(m, c, u + L1),
        0b11110 => load_mmode_msum(m, c),
        0b11111 => load_then_clear(
            m,
            c,
            u + MRM,
            field(c, 8, 15),
            u + MIN,
            field(c, 16, 23),
            u + L1,
        ),
        _ => {}
    }
}
