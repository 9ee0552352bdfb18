// MISC: DX is loaded, wait bits and pause bits are cleared.
#![tactic(auto)]

ghost use Rattle.std.specs.Prelude.{◌≡◌, cond, ◌<◌, eqb, set};
ghost use Rattle.layout.specs.Layout.{dx_at};
ghost use Rattle.layout.specs.Machine.{Reaches};
ghost use Rattle.command_fields.specs.Fields.{field, data_of};
ghost use Rattle.command_misc.specs.Misc.{released_one, released, miscellany};

use command_fields::{field, flag};

// Generator g goes to 1111 if it is in the given run mode.
fn release_one(m: &mut [u32], run: u32, g: usize)
    requires reaches { Reaches m.old }
    requires g_bound { g < 256 }
    ensures { m.new ≡ released_one run m.old g }
{
    let at = layout::GENERATOR_WORDS * g + layout::GMODE;
    let gmode = m[at];
    if gmode / 64 == run {
        m[at] = layout_modes::RUNNING_A * 64 + gmode % 64;
    }
}

// All generators in the given run mode go to 1111.
fn release(m: &mut [u32], run: u32)
    requires { Reaches m.old }
    ensures { m.new ≡ released run m.old }
{
    for g in 0..layout::GENERATORS {
        release_one(m, run, g);
    }
}

// The same where that is asked for.
fn release_if(m: &mut [u32], asked: bool, run: u32)
    requires { Reaches m.old }
    ensures { m.new ≡ cond asked (released run m.old) m.old }
{
    if asked {
        release(m, run);
    }
}

// RR 01 loads DX.
fn load_dx(m: &mut [u32], c: u32)
    requires { Reaches m.old }
    ensures { m.new ≡ cond (eqb (field 29 30 c) 0b01) (set m.old dx_at (data_of c)) m.old }
{
    if field(c, 29, 30) == 0b01 {
        m[layout::DX_AT] = field(c, 4, 23);
    }
}

// MISC: RR 01 loads DX, W clears all wait bits, P all pause bits.
pub fn miscellany(m: &mut [u32], c: u32)
    requires { Reaches m.old }
    ensures { m.new ≡ miscellany m.old c }
{
    load_dx(m, c);
    release_if(m, flag(c, 33), layout_modes::WAIT);
    release_if(m, flag(c, 34), layout_modes::PAUSE);
}
