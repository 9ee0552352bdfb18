// The modifiers of a pass, taken by number.
#![tactic(auto)]

ghost use Rattle.std.specs.Prelude.{◌≡◌, [], ◌≤◌, ◌<◌, get_or, set};
ghost use Rattle.layout.specs.Layout.{modifier_at};
ghost use Rattle.layout.specs.Machine.{Reaches};
ghost use Rattle.modifier.specs.Modifier.{Ranged, stored};
ghost use Rattle.pass_sums.specs.Sums.{modifier_this};
ghost use Rattle.pass_model.specs.Modifiers.{invokes_delay, turn_seen, delayed, modified_by};
ghost use Rattle.pass_views.specs.AsCoded.{turn_with_b};
ghost use Rattle.pass_modifiers.specs.AsCoded.{lag_step};

use layout_texts::Text;
use modifier::Modifier;
use pass_sums::{Quadrant, Sums};
use pass_views::{Lag, Written};

// Modifier k, which invokes no delay unit, is taken; the answer is S.
fn plain(text: Text, m: &mut [u32], s: &Sums, early: &Quadrant, k: usize, u: Modifier) -> u32
    requires reaches { Reaches m.old }
    requires k_bound { k < 128 }
    requires ranged { Ranged u }
    ensures { (result ≡ (turn_with_b text s.now early.now (get_or s.now modifier_this []) u).s) × (m.new ≡ stored m.old (modifier_at k) (turn_with_b text s.now early.now (get_or s.now modifier_this []) u).unit) }
{
    let turn = pass_views::turned(text, s, early, u);
    let unit = turn.unit;
    pass_registers::put_modifier_at(m, k, unit);
    turn.s
}

// Whether a modifier invokes a delay unit, by a text.
fn invokes(text: Text, u: Modifier) -> bool
    requires { Ranged u }
    ensures { result ≡ invokes_delay text u }
{
    match text {
        Text::Of1978 => modifier_delay::invoking(u.function()),
        Text::Old => false,
    }
}

// Modifier k is taken, and the delay unit that it invokes, if it invokes one; the answer is S.
fn taken(
    text: Text,
    m: &mut [u32],
    s: &Sums,
    memory: &mut [u32],
    early: &Quadrant,
    t: usize,
    k: usize,
    u: Modifier,
) -> u32
    requires reaches { Reaches m.old }
    requires k_bound { k < 128 }
    requires ranged { Ranged u }
    ensures { (result ≡ (turn_seen text t m.old s.now early.now (get_or s.now modifier_this []) u).s) × (record { words = m.new; memory = memory.new } ≡ delayed text t (record { words = stored m.old (modifier_at k) (turn_seen text t m.old s.now early.now (get_or s.now modifier_this []) u).unit; memory = memory.old }) u (turn_seen text t m.old s.now early.now (get_or s.now modifier_this []) u).unit.l1) }
{
    if invokes(text, u) {
        let late = &s[pass_sums::MODIFIER_THIS];
        let a = pass_views::look(s, late, u.min);
        return pass_delays::invoked(text, m, memory, t, k, u, a);
    }
    plain(text, m, s, early, k, u)
}

// Modifier k is taken. Before its turn the early view catches up with the write of k-4, whose slot its own write then has.
fn step(
    text: Text,
    m: &mut [u32],
    s: &mut Sums,
    memory: &mut [u32],
    lag: &mut Lag,
    t: usize,
    k: usize,
)
    requires reaches { Reaches m.old }
    requires k_bound { k < 128 }
    ensures { record { held = record { words = m.new; memory = memory.new }; sums = s.new; lag = lag.new } ≡ lag_step text t (record { held = record { words = m.old; memory = memory.old }; sums = s.old; lag = lag.old }) k }
{
    let j = k % 4;
    lag.catch_up(j);
    let u = pass_registers::modifier_at(m, k);
    let value = taken(text, m, s, memory, &lag.early, t, k, u);
    let left = pass_views::put(s, u.msum, value);
    lag.writes[j] = Written { msum: u.msum, left };
}

// Modifiers 0 to n-1 are taken in a pass of t processing ticks, on the machine's words, on modifier-this in sum memory and on delay memory.
pub fn modifiers(text: Text, m: &mut [u32], s: &mut Sums, memory: &mut [u32], t: usize, n: usize)
    requires reaches { Reaches m.old }
    requires n_bound { n ≤ 128 }
    ensures { (record { words = m.new; memory = memory.new } ≡ (modified_by text t (record { words = m.old; memory = memory.old }) s.old n).held) × (s.new ≡ set s.old modifier_this (modified_by text t (record { words = m.old; memory = memory.old }) s.old n).this) }
{
    let mut lag = Lag::new(&s[pass_sums::MODIFIER_THIS]);
    for k in 0..n {
        step(text, m, s, memory, &mut lag, t, k);
    }
}
