// TIMER and TICKS: the pass counter, lingering, T and N with their update ticks.
#![tactic(auto)]

ghost use Rattle.std.specs.Prelude.{◌≡◌, slice_set};
ghost use Rattle.layout.specs.Layout.{counter_at};
ghost use Rattle.layout.specs.Machine.{Reaches};
ghost use Rattle.command_timer.specs.Timer.{waits_for, lingered, timed, timer_waits, ticks_set};

use command_fields::{field, flag};

// A Linger to n. Whether it waits.
fn linger(m: &mut [u32], n: u32) -> bool
    requires { Reaches m.old }
    ensures { (result ≡ waits_for m.old n) × (m.new ≡ lingered m.old n) }
{
    let behind = m[layout::COUNTER_AT].wrapping_sub(n) % layout::LINGER_LIMIT;
    if 4096 < behind {
        m[layout::LINGERING_AT] = 1;
        m[layout::LINGER_PASS_AT] = n;
        return true;
    }
    if behind != 0 {
        m[layout::OVERRUN_AT] = 1;
    }
    false
}

// The pass counter is set, with no bit of it kept.
fn set_counter(m: &mut [u32], n: u32)
    requires { Reaches m.old }
    ensures { m.new ≡ slice_set m.old counter_at n }
{
    m[layout::COUNTER_AT] = n;
}

// TIMER: TT 01 sets the pass counter, 10 is a Linger, 11 clears the pass counter and then is a Linger. Whether it waits.
pub fn timer(m: &mut [u32], c: u32) -> bool
    requires { Reaches m.old }
    ensures { (result ≡ timer_waits m.old c) × (m.new ≡ timed m.old c) }
{
    let data = field(c, 4, 23);
    match field(c, 31, 32) {
        0b01 => {
            set_counter(m, data);
            false
        }
        0b10 => linger(m, data),
        0b11 => {
            set_counter(m, 0);
            linger(m, data)
        }
        _ => false,
    }
}

// TICKS: Q 0 sets T, Q 1 sets N, and either sets the update ticks of both.
pub fn ticks(m: &mut [u32], c: u32)
    requires { Reaches m.old }
    ensures { m.new ≡ ticks_set m.old c }
{
    let data = field(c, 14, 23);
    let t = m[layout::T_AT];
    let n = m[layout::N_AT];
    if flag(c, 32) {
        let all = data + 2;
        m[layout::N_AT] = all;
        m[layout::UPDATE_TICKS_AT] = layout::update_ticks(t, all);
    } else {
        let processing = data + 1;
        m[layout::T_AT] = processing;
        m[layout::UPDATE_TICKS_AT] = layout::update_ticks(processing, n);
    }
}
