// The shapes of the commands that load registers: the data as they are, adjusted to a wider register, or two fields with their disable bits.
#![tactic(auto)]

ghost use Rattle.std.specs.Prelude.{◌≡◌, ◌<◌, ◌≤◌, length};
ghost use Rattle.layout.specs.Machine.{Reaches};
ghost use Rattle.command_load.specs.Loads.{loaded_unless, cleared_if, loaded_data, loaded_adjusted, loaded_two, loaded_then_cleared};

use command_fields::{field, flag};

// A word is loaded unless that is disabled.
#[tactic(auto, unfolding(crate::specs::Loads::loaded_unless))]
pub fn load_unless(m: &mut [u32], disabled: bool, at: usize, v: u32)
    requires { at < length m.old }
    ensures { m.new ≡ loaded_unless disabled m.old at v }
{
    if !disabled {
        m[at] = v;
    }
}

// A word is cleared if that is asked for.
#[tactic(auto, unfolding(crate::specs::Loads::cleared_if))]
pub fn clear_if(m: &mut [u32], clear: bool, at: usize)
    requires { at < length m.old }
    ensures { m.new ≡ cleared_if clear m.old at }
{
    if clear {
        m[at] = 0;
    }
}

// A register of 20 bits is loaded with the data.
#[tactic(auto, unfolding(crate::specs::Loads::loaded_data))]
pub fn load_data(m: &mut [u32], c: u32, at: usize)
    requires { at < length m.old }
    ensures { m.new ≡ loaded_data m.old c at }
{
    m[at] = field(c, 4, 23);
}

// A wider register is loaded left-adjusted, its low bits from DX, which is cleared, if bit 27 is 1, else right-adjusted, with sign extended.
pub fn load_adjusted(m: &mut [u32], c: u32, at: usize, width: u32)
    requires reaches { Reaches m.old }
    requires at_in_bounds { (at < length m.old) × (20 ≤ width) × (width ≤ 30) }
    ensures { m.new ≡ loaded_adjusted m.old c at width }
{
    let data = field(c, 4, 23);
    if flag(c, 27) {
        let low = m[layout::DX_AT] >> (40 - width);
        m[at] = (data << (width - 20)) + low;
        m[layout::DX_AT] = 0;
        return;
    }
    m[at] = base_words::extend::<20>(data) % (1 << width);
}

// Two registers are loaded, the first unless bit 4 is 1, the second unless bit 5 is.
pub fn load_two(m: &mut [u32], c: u32, first: usize, v: u32, second: usize, w: u32)
    requires { (first < length m.old) × (second < length m.old) }
    ensures { m.new ≡ loaded_two m.old c first v second w }
{
    load_unless(m, flag(c, 4), first, v);
    load_unless(m, flag(c, 5), second, w);
}

// The same, and a third is cleared if bit 6 is 1.
pub fn load_then_clear(
    m: &mut [u32],
    c: u32,
    first: usize,
    v: u32,
    second: usize,
    w: u32,
    third: usize,
)
    requires { (first < length m.old) × (second < length m.old) × (third < length m.old) }
    ensures { m.new ≡ loaded_then_cleared m.old c first v second w third }
{
    load_two(m, c, first, v, second, w);
    clear_if(m, flag(c, 6), third);
}
