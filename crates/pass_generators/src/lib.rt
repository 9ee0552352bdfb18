// The generators of a pass, taken in an order.
#![tactic(auto)]

ghost use Rattle.std.specs.Prelude.{◌≡◌, true, ◌<◌, ◌^◌};
ghost use Rattle.layout.specs.Machine.{Reaches};
ghost use Rattle.layout_modes.specs.Modes.{switches_of, envelope_on, wait};
ghost use Rattle.layout.specs.Layout.{generator_at};
ghost use Rattle.generator.specs.Generator.{stored};
ghost use Rattle.generator_turn.specs.AsCoded.{run_of, after_of};
ghost use Rattle.layout_texts.specs.Texts.{distance_of};
ghost use Rattle.pass_model.specs.Generators.{generators_of, generator_of, triggered_below, step, begun, taken_by};
ghost use Rattle.pass_model.specs.Clipped.{marked, marked_by};
ghost use Rattle.pass_generators.specs.AsCoded.{WithinWidths, Ready, Numbers, sounded, state_of};

use generator::{Generator, Tables};
use layout_modes::Switches;
use layout_texts::Text;
use pass_outputs::Taking;

// Generator g of the machine.
fn generator_at(m: &[u32], g: usize) -> Generator
    requires reaches { Reaches m.now }
    requires g_bound { g < 256 }
    ensures { result ≡ generator_of m.now g }
{
    let at = layout::GENERATOR_WORDS * g;
    Generator::load(&m[at..])
}

// The registers of generator g that a turn can change are written back.
fn put_generator_at(m: &mut [u32], g: usize, unit: Generator)
    requires reaches { Reaches m.old }
    requires g_bound { g < 256 }
    ensures { m.new ≡ stored m.old (generator_at g) unit }
{
    let at = layout::GENERATOR_WORDS * g;
    unit.store(&mut m[at..]);
}

// A generator whose envelope is on is taken.
fn take_playing(
    text: Text,
    tables: &Tables,
    m: &mut [u32],
    taking: &mut Taking,
    items: &[u32],
    g: usize,
    on: Switches,
    f: u32,
)
    requires reaches { Reaches m.old }
    requires on_value { (on ≡ switches_of (run_of text (generator_of m.old g))) × (envelope_on (run_of text (generator_of m.old g)) ≡ true) }
    requires f_bound { (f < 2 ^ 20) × (g < 256) × (taking.old.done.reads < 256) }
    ensures { record { words = m.new; taking = taking.new } ≡ sounded text items.now (record { words = m.old; taking = taking.old }) g (generator_of m.old g) f }
{
    let unit = generator_at(m, g);
    let sounded = generator_turn::turn_playing(text, unit, tables, on, f);
    let turned = sounded.unit;
    put_generator_at(m, g, turned);
    taking.mark(g, sounded.triggers);
    taking.add_output(items, on.output, unit.gsum, sounded.p);
}

// A generator that waits is taken.
fn take_waiting(text: Text, m: &mut [u32], taking: &Taking, g: usize, f: u32)
    requires reaches { Reaches m.old }
    requires g_value { (run_of text (generator_of m.old g) ≡ wait) × (f < 2 ^ 20) × (g < 256) }
    ensures { m.new ≡ stored m.old (generator_at g) (after_of text (generator_of m.old g) f (triggered_below (distance_of text) taking.now.triggered g)) }
{
    let unit = generator_at(m, g);
    let below = taking.triggered_below(text, g);
    let after = generator_turn::turn_waiting(text, unit, f, below);
    put_generator_at(m, g, after);
}

// One generator is taken. Its registers are loaded where its way is known: inactive and paused ones are many.
fn step(
    text: Text,
    tables: &Tables,
    m: &mut [u32],
    taking: &mut Taking,
    items: &[u32],
    places: &mut [u32],
    g: usize,
)
    requires reaches { Reaches m.old }
    requires within_widths { WithinWidths m.old g }
    requires g_bound { (g < 256) × (taking.old.done.reads < 256) × (taking.old.done.writes < 256) }
    ensures writes_after { state_of m.new places.new taking.new ≡ step (generators_of text) items.now (state_of m.old places.old taking.old) g }
    ensures clipped_after { taking.new.clipped ≡ marked (generators_of text) items.now (state_of m.old places.old taking.old) taking.old.clipped g }
{
    let run = layout_texts::run_mode(text, m, g);
    if run <= layout_modes::PAUSE {
        return;
    }
    let f = pass_sums::f_at(&taking.sums, layout::gfm(m, g) % layout::GFM_LIMIT);
    let on = tables.switches.switches_of(run);
    if on.envelope {
        take_playing(text, tables, m, taking, items, g, on, f);
        return;
    }
    if on.oscillator {
        take_waiting(text, m, taking, g, f);
        return;
    }
    let unit = generator_at(m, g);
    taking.send(text, m, places, run, unit, f);
}

// The generators of an order are taken one after the other, from nothing triggered, read and written; words that left their range are marked. The tables are handed on, so that a caller of many passes copies them once, and what is taken is handed on too: by value it was copied at each hand-over.
pub fn generators(
    text: Text,
    tables: &Tables,
    m: &mut [u32],
    taking: &mut Taking,
    order: &[u32],
    items: &[u32],
    places: &mut [u32],
)
    requires ready { Ready m.old }
    requires numbers { Numbers order.now }
    ensures writes_after { record { words = m.new; sums = taking.new.sums; places = places.new; reads = taking.new.done.reads; writes = taking.new.done.writes } ≡ taken_by (generators_of text) items.now (begun m.old taking.old.sums places.old) order.now }
    ensures clipped_after { taking.new.clipped ≡ marked_by (generators_of text) items.now (begun m.old taking.old.sums places.old) taking.old.clipped order.now }
{
    taking.begin();
    for entry in order {
        step(text, tables, m, taking, items, places, layout::wide(*entry));
    }
}
