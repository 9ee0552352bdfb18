// The turn of a modifier that invokes a delay unit, and of that unit.
#![tactic(auto)]

ghost use Rattle.std.specs.Prelude.{◌≡◌, true, cond, ◌<◌, ◌^◌};
ghost use Rattle.base_words.specs.Words.{Word};
ghost use Rattle.layout.specs.Layout.{modifier_at, delay_at};
ghost use Rattle.layout.specs.Machine.{Reaches};
ghost use Rattle.modifier.specs.Modifier.{Ranged, stored};
ghost use Rattle.modifier_delay.specs.Invoke.{invoke_delay};
ghost use Rattle.delay.specs.Delay.{Ranged as RangedDelay, stored as stored_delay, due, delay_turn_of as delay_turn};
ghost use Rattle.pass_model.specs.Modifiers.{invokes_delay, Held, given, delayed};

use delay::Delay;
use layout_texts::Text;
use modifier::Modifier;

// The registers of delay unit n that a turn can change are written back.
fn put_delay_at(m: &mut [u32], n: usize, unit: Delay)
    requires reaches { Reaches m.old }
    requires n_bound { n < 32 }
    ensures { m.new ≡ stored_delay m.old (delay_at n) unit }
{
    let at = layout::DELAYS_AT + layout::DELAY_WORDS * n;
    unit.store(&mut m[at..]);
}

// The word that a delay unit gives: the one that is due, and 0 where it acts as inactive.
fn given(d: Delay, runs: bool) -> u32
    requires { RangedDelay d }
    ensures { Word (cond runs (due d) 0) result }
{
    if !runs {
        return 0;
    }
    d.first
}

// The turn of delay unit n with a word from the modifier: none where it acts as inactive.
fn unit_turn(m: &mut [u32], memory: &mut [u32], n: usize, d: Delay, runs: bool, w: u32)
    requires reaches { Reaches m.old }
    requires n_bound { (n < 32) × (w < 2 ^ 20) }
    requires ranged_delay { RangedDelay d }
    ensures { record { words = m.new; memory = memory.new } ≡ cond {A = Held} runs (record { words = stored_delay m.old (delay_at n) (delay_turn d memory.old w).unit; memory = (delay_turn d memory.old w).memory }) (record { words = m.old; memory = memory.old }) }
{
    if !runs {
        return;
    }
    let after = d.turn(memory, w);
    put_delay_at(m, n, after);
}

// Modifier k, which invokes a delay unit, is taken with its A, then the unit, which gets L1; the answer is S. The unit is loaded once, since the modifier's registers are not among its own.
pub fn invoked(
    text: Text,
    m: &mut [u32],
    memory: &mut [u32],
    t: usize,
    k: usize,
    u: Modifier,
    a: u32,
) -> u32
    requires reaches { Reaches m.old }
    requires k_bound { k < 128 }
    requires ranged { Ranged u }
    requires u_value { (invokes_delay text u ≡ true) × (a < 2 ^ 20) }
    ensures { (result ≡ (invoke_delay u a (given t m.old u)).s) × (record { words = m.new; memory = memory.new } ≡ delayed text t (record { words = stored m.old (modifier_at k) (invoke_delay u a (given t m.old u)).unit; memory = memory.old }) u (invoke_delay u a (given t m.old u)).unit.l1) }
{
    let n = modifier_delay::unit_of(u);
    let d = delay_questions::delay_at(m, n);
    let runs = d.runs(t, n);
    let dm = given(d, runs);
    let turn = modifier_delay::invoke_delay(u, a, dm);
    let unit = turn.unit;
    pass_registers::put_modifier_at(m, k, unit);
    unit_turn(m, memory, n, d, runs, unit.l1);
    turn.s
}
