// The generator that is to sound so that a sum word shows that the fourth point fails there, by the traces of two orders.
#![tactic(auto)]

ghost use Rattle.std.specs.Prelude.{◌≡◌, false, ◌<◌};
ghost use Rattle.layout.specs.Layout.{generators, quadrant_words};
ghost use Rattle.layout.specs.Machine.{ticks_of};
ghost use Rattle.base_sequences.specs.Sequences.{first_failing};
ghost use Rattle.compare_agreement.specs.Agreement.{settings_of};
ghost use Rattle.compare_agreement.specs.Points.{word_same, sounding_at};
ghost use Rattle.compare_points.specs.AsCoded.{sides};
ghost use Rattle.compare_sounding.specs.AsCoded.{adder_on};

use compare_points::Orders;

// Whether g, if it adds to word w, stands on the same side of generator l in both orders.
fn adder_same(orders: &Orders, w: usize, l: usize, g: usize) -> bool
    requires { (l < generators) × (g < generators) }
    ensures { result ≡ adder_on orders.now.text orders.now.m.now (sides orders.now.first_trace.now orders.now.second_trace.now) w l g }
{
    if layout::gsum(orders.m, g) != w {
        return true;
    }
    if !compare_roles::adding(layout_texts::run_mode(orders.text, orders.m, g)) {
        return true;
    }
    orders.same_side(l, g)
}

// The lowest generator that adds to word w and stands on another side of generator l; T where there is none, as the definition has it:
// at a word where the fourth point fails there is one.
fn adder_point(orders: &Orders, w: usize, l: usize) -> usize
    requires { l < generators }
    ensures { result ≡ first_failing (adder_on orders.now.text orders.now.m.now (sides orders.now.first_trace.now orders.now.second_trace.now) w l) (ticks_of orders.now.m.now) }
{
    let t = layout::ticks(orders.m);
    for g in 0..t {
        if !adder_same(orders, w, l, g) {
            return g;
        }
    }
    t
}

// The generator that is to sound at a word at which the fourth point fails; GENERATORS where none is, a number that the contents' definition takes too.
pub fn sounding(orders: &Orders, w: usize) -> usize
    requires { (w < quadrant_words) × (word_same (settings_of orders.now.text orders.now.m.now) orders.now.first.now orders.now.second.now w ≡ false) }
    ensures { result ≡ sounding_at (settings_of orders.now.text orders.now.m.now) orders.now.first.now orders.now.second.now w }
{
    let first = &orders.first_trace.replaced;
    let second = &orders.second_trace.replaced;
    let l = layout::wide(first.last[w]) - 1;
    if first.last[w] != second.last[w] {
        return l;
    }
    if first.among[w] != second.among[w] {
        return layout::GENERATORS;
    }
    adder_point(orders, w, l)
}
