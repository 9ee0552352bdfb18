// The first of the four points that fails, and whether two orders of the generators agree on the four together.
#![tactic(auto)]

ghost use Rattle.std.specs.Prelude.{◌≡◌};
ghost use Rattle.layout.specs.Machine.{ticks_of};
ghost use Rattle.pass_order.specs.Order.{IsOrder};
ghost use Rattle.compare_agreement.specs.Agreement.{settings_of};
ghost use Rattle.compare_agreement.specs.Points.{failing_word, first_point, agrees};
ghost use Rattle.compare_traces.specs.AsCoded.{Traceable};
ghost use Rattle.compare_first.specs.Found.{found};

use compare_points::Orders;
use compare_traces::Trace;
use layout_texts::Text;

// The first of the four points that fails: its number, 1 to 4, which the C interface hands on, the lowest place at which it fails,
// and for the fourth the generator that is to sound so that a pass shows it, else 0.
#[derive(Clone, Copy)]
pub struct Failing {
    pub point: u32,
    pub place: u32,
    pub sounding: usize,
}

// The fourth point where the others hold.
fn failing_word(orders: &Orders) -> Option<Failing>
    ensures { result ≡ found (failing_word (settings_of orders.now.text orders.now.m.now) orders.now.first.now orders.now.second.now) }
{
    let w = orders.word_point()?;
    Some(Failing {
        point: 4,
        place: w as u32,
        sounding: compare_sounding::sounding(orders, w),
    })
}

// The first point that fails, by what the traces of two orders hold.
fn first_failing(orders: &Orders) -> Option<Failing>
    ensures { result ≡ found (first_point (settings_of orders.now.text orders.now.m.now) orders.now.first.now orders.now.second.now) }
{
    if let Some(g) = orders.neighbour_point() {
        return Some(Failing {
            point: 1,
            place: g as u32,
            sounding: 0,
        });
    }
    if let Some(d) = orders.feeder_point() {
        return Some(Failing {
            point: 2,
            place: d as u32,
            sounding: 0,
        });
    }
    if let Some(i) = orders.writer_point() {
        return Some(Failing {
            point: 3,
            place: i as u32,
            sounding: 0,
        });
    }
    failing_word(orders)
}

// The first point that fails, if one does.
pub fn first_point(text: Text, m: &[u32], first: &[u32], second: &[u32]) -> Option<Failing>
    requires traceable { Traceable m.now }
    requires order { IsOrder (ticks_of m.now) first.now × IsOrder (ticks_of m.now) second.now }
    ensures { result ≡ found (first_point (settings_of text m.now) first.now second.now) }
{
    let runs = compare_roles::runs(text, m);
    let mut first_trace = Trace::new();
    first_trace.follow(text, m, &runs, first);
    let mut second_trace = Trace::new();
    second_trace.follow(text, m, &runs, second);
    first_failing(&Orders {
        text,
        m,
        first,
        second,
        runs: &runs,
        first_trace: &first_trace,
        second_trace: &second_trace,
    })
}

// Whether none of the four points fails.
pub fn agrees(text: Text, m: &[u32], first: &[u32], second: &[u32]) -> bool
    requires traceable { Traceable m.now }
    requires order { IsOrder (ticks_of m.now) first.now × IsOrder (ticks_of m.now) second.now }
    ensures { result ≡ agrees (settings_of text m.now) first.now second.now }
{
    first_point(text, m, first, second).is_none()
}
