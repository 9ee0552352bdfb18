// What a generator's run mode does that an order of the generators can tell.
#![tactic(auto)]

ghost use Rattle.std.specs.Prelude.{◌≡◌, ◌<◌, ◌≤◌};
ghost use Rattle.layout.specs.Layout.{generators};
ghost use Rattle.layout.specs.Machine.{Reaches, ticks_of};
ghost use Rattle.layout_texts.specs.Texts.{run_mode_at};
ghost use Rattle.layout_modes.specs.Modes.{free, adds};
ghost use Rattle.compare_agreement.specs.Agreement.{settings_of, awaits};
ghost use Rattle.compare_roles.specs.AsCoded.{Within, RunsOf};

use layout_texts::Text;

// Whether a run mode can trigger.
pub fn triggering(run: u32) -> bool
    ensures { result ≡ free run }
{
    // No `matches!`: these two comparisons are as short, and one equation where its arms are three cases.
    (run == layout_modes::RUNNING_B) | (run == layout_modes::RUNNING_C)
}

// Whether a run mode has adding on.
pub fn adding(run: u32) -> bool
    ensures { result ≡ adds run }
{
    (run == layout_modes::RUNNING_A) | triggering(run)
}

// Whether generator g waits and has a lower neighbour that can trigger.
pub fn awaits(text: Text, m: &[u32], g: usize) -> bool
    requires reaches { Reaches m.now }
    requires g_lt_generators { g < generators }
    ensures { result ≡ awaits (settings_of text m.now) g }
{
    let distance = layout_texts::distance(text);
    if g < distance {
        return false;
    }
    if layout_texts::run_mode(text, m, g) != layout_modes::WAIT {
        return false;
    }
    triggering(layout_texts::run_mode(text, m, g - distance))
}

// The run modes of the generators below T, by number.
pub type Runs = [u8; layout::GENERATORS];

// They are filled once: what a text makes of GMODE and GN is worked out for each generator once, and not at each look at it.
pub fn runs(text: Text, m: &[u32]) -> Runs
    requires reaches { Reaches m.now × (ticks_of m.now ≤ generators) }
    requires within { Within m.now }
    ensures { RunsOf text m.now result }
{
    let t = layout::ticks(m);
    let mut runs = [0u8; layout::GENERATORS];
    for g in 0..t {
        let run = layout_texts::run_mode(text, m, g);
        runs[g] = run as u8;
    }
    runs
}

// The run mode of generator g, below T. The text and the machine are handed over for what is promised of it.
pub fn run_at(text: Text, m: &[u32], runs: &Runs, g: usize) -> u32
    requires runs_of { RunsOf text m.now runs.now }
    requires g_bound { (g < ticks_of m.now) × (ticks_of m.now ≤ generators) }
    ensures { result ≡ run_mode_at text m.now g }
{
    runs[g] as u32
}
