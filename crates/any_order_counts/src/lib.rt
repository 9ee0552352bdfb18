// The generators of a machine counted by what an order of them can tell: one is put in or taken out at a time.
#![tactic(auto)]

ghost use Rattle.std.specs.Prelude.{◌≡◌, ◌-◌, ◌<◌, ◌≤◌};
ghost use Rattle.base_lists.specs.Lists.{zeros};
ghost use Rattle.layout.specs.Layout.{generators};
ghost use Rattle.layout.specs.Machine.{Reaches, ticks_of};
ghost use Rattle.any_order_sums.specs.Places.{kept_length};
ghost use Rattle.any_order_counts.specs.AsCoded.{Countable, awaited, role_moved, roles_moved, counted_moved, counted_to};

use any_order_sums::Kept;
use layout_texts::Text;

// Whether generator g has an upper neighbour below t that waits for it.
fn awaited(m: &[u32], t: usize, g: usize) -> bool
    requires reaches { Reaches m.now }
    requires g_lt_generators { g < generators }
    requires t_le_generators { t ≤ generators }
    ensures { result ≡ awaited m.now t g }
{
    let above = g + 1;
    if t <= above {
        return false;
    }
    compare_roles::awaits(Text::Of1978, m, above)
}

// Generator g is put in (up) or taken out at its kind's place, among all 0111s if it is one, and with the pair below it.
// Adding generators are many, so they are asked for first; only one that waits has a pair below it.
fn shift_role(m: &[u32], kept: &mut Kept, g: usize, up: bool)
    requires countable { Countable m.now }
    requires g_lt_generators { g < generators }
    ensures { kept.new ≡ role_moved up m.now kept.old g }
{
    let run = layout_texts::run_mode(Text::Of1978, m, g);
    if compare_roles::adding(run) {
        any_order_sums::shift_adder(kept, layout::gsum(m, g), up);
        return;
    }
    if run == layout_modes::WRITE_DATA {
        any_order_sums::shift_writer(kept, layout::wide(layout::gfm(m, g)), up);
        return;
    }
    if run == layout_modes::WRITE_DAC {
        let d = layout_texts::dac_number(Text::Of1978, m, g);
        any_order_sums::shift_feeder(kept, d, layout::wide(layout::gfm(m, g)), up);
        return;
    }
    if run == layout_modes::READ_DATA {
        any_order_sums::shift_reader(kept, layout::gsum(m, g), up);
        any_order_sums::shift(kept, any_order_sums::ALL_READERS_AT, up);
        return;
    }
    let awaits = compare_roles::awaits(Text::Of1978, m, g);
    any_order_sums::shift_other(kept, up);
    any_order_sums::shift_if(kept, any_order_sums::AWAITING_AT, up, awaits);
}

// The generators from `from` to below `end` are put in or taken out, one after the other. This one loop serves a count and a change,
// so that what is done for a generator has one caller, stands in the loop and costs no call.
fn shift_roles(m: &[u32], kept: &mut Kept, from: usize, end: usize, up: bool)
    requires countable { Countable m.now }
    requires end_le_generators { end ≤ generators }
    ensures { kept.new ≡ roles_moved up m.now kept.old from (end - from) }
{
    for g in from..end {
        shift_role(m, kept, g, up);
    }
}

// Generator g is put in (up) or taken out where it is below T, with the pair above it too.
pub fn shift_counted(m: &[u32], kept: &mut Kept, g: usize, up: bool)
    requires countable { Countable m.now }
    requires g_lt_generators { g < generators }
    ensures { kept.new ≡ counted_moved up m.now kept.old g }
{
    let t = layout::ticks(m);
    if t <= g {
        return;
    }
    let above = awaited(m, t, g);
    shift_roles(m, kept, g, g + 1, up);
    any_order_sums::shift_if(kept, any_order_sums::AWAITING_AT, up, above);
}

// The generators below T are put in, from counts of zero.
pub fn count(m: &[u32], kept: &mut Kept)
    requires countable { Countable m.now }
    requires kept_value { kept.old ≡ zeros kept_length }
    ensures { kept.new ≡ counted_to m.now (ticks_of m.now) }
{
    let t = layout::ticks(m);
    shift_roles(m, kept, 0, t, true);
}
