// One generator by value: its registers, and its turn in a pass.
#![tactic(auto)]

ghost use Rattle.std.specs.Prelude.{◌≤◌, ◌<◌, ◌^◌, ◌≡◌, true, length};
ghost use Rattle.base_words.specs.Words.{low_bits, signed, sum, sum_into};
ghost use Rattle.layout_modes.specs.Modes.{switches_of, envelope_on, wait, with_run_mode};
ghost use Rattle.generator_oscillator.specs.Oscillator.{Wave, wave_of, sine_wave, sum_of_cosines};
ghost use Rattle.generator_envelope.specs.Envelope.{overflows, decayed, enveloped};
ghost use Rattle.generator.specs.Generator.{loaded, stored, updated, Ranged, run_mode, oscillator_mode, after, sounded_of};
ghost use Rattle.generator.specs.AsCoded.{phase_of, oscillated, left_by, output_by, advanced_by, ended_of};

use base_words::SignMagnitude;
use generator_exponential::Entries;
use generator_sine::Quarter;
use layout_modes::{Rows, Switches};

// The tables of a turn, which a caller of many turns makes once and hands on.
#[derive(Drop)]
pub struct Tables {
    pub sine: Quarter,
    pub decay: Entries,
    pub switches: Rows,
}

impl Tables {
    // The tables are copied.
    pub fn new() -> Tables {
        Tables {
            sine: Quarter::new(),
            decay: Entries::new(),
            switches: Rows::new(),
        }
    }
}

#[derive(Clone, Copy)]
pub struct Generator {
    pub go: u32,
    pub gj: u32,
    pub gk: u32,
    pub gn: u32,
    pub gm: u32,
    pub gp: u32,
    pub gq: u32,
    pub gl: u32,
    pub gsum: u32,
    pub gfm: u32,
    pub gmode: u32,
}

// What a generator whose envelope is on brings: its registers afterwards, P, and whether it triggers.
#[derive(Clone, Copy)]
pub struct Sounded {
    pub unit: Generator,
    pub p: u32,
    pub triggers: bool,
}

impl Generator {
    // The generator whose words a part of the machine starts with.
    #[tactic(auto, unfolding(crate::specs::Generator::loaded))]
    pub fn load(m: &[u32]) -> Generator
        requires { 11 ≤ length m.now }
        ensures { result ≡ loaded m.now }
    {
        Generator {
            go: m[layout::GO] % layout::GO_LIMIT,
            gj: m[layout::GJ] % layout::GJ_LIMIT,
            gk: m[layout::GK] % layout::GK_LIMIT,
            gn: m[layout::GN] % layout::GN_LIMIT,
            gm: m[layout::GM] % layout::GM_LIMIT,
            gp: m[layout::GP] % layout::GP_LIMIT,
            gq: m[layout::GQ] % layout::GQ_LIMIT,
            gl: m[layout::GL] % layout::GL_LIMIT,
            gsum: m[layout::GSUM] % layout::GSUM_LIMIT,
            gfm: m[layout::GFM] % layout::GFM_LIMIT,
            gmode: m[layout::GMODE] % layout::GMODE_LIMIT,
        }
    }

    // The registers that a turn can change are written back.
    #[tactic(auto, unfolding(crate::specs::Generator::stored))]
    pub fn store(self, m: &mut [u32])
        requires { 11 ≤ length m.old }
        ensures { m.new ≡ stored m.old 0 self }
    {
        m[layout::GJ] = self.gj;
        m[layout::GK] = self.gk;
        m[layout::GQ] = self.gq;
        m[layout::GMODE] = self.gmode;
    }

    // Step 1: the high 20 bits of GJ plus F, exactly; J is its low 20 bits. One number tells J and whether the sum left its range.
    #[tactic(auto, unfolding(crate::specs::AsCoded::phase_of))]
    pub fn phase(self, f: u32) -> u32
        requires ranged { Ranged self }
        requires f_bound { f < 2 ^ 20 }
        ensures { signed 32 result ≡ phase_of self f }
    {
        base_words::exact::<20>(self.gj / 256, f)
    }

    // Step 2: GO is added into GJ.
    pub fn sweep(mut self) -> Generator
        requires { Ranged self }
        ensures { result ≡ updated self (sum_into 28 20 self.gj self.go) self.gk self.gq self.gmode }
    {
        self.gj = base_words::into::<28>(self.gj, self.go);
        self
    }

    // Step 4: J is added into GK.
    pub fn turn(mut self, j: u32) -> Generator
        requires { (self.gk < 2 ^ 20) × (j < 2 ^ 20) }
        ensures { result ≡ updated self self.gj (sum 20 self.gk j) self.gq self.gmode }
    {
        self.gk = base_words::add::<20>(self.gk, j);
        self
    }

    // Step 7: GP is added into GQ.
    pub fn decay(mut self, free: bool) -> Generator
        requires { (self.gq < 2 ^ 24) × (self.gp < 2 ^ 20) }
        ensures { result ≡ updated self self.gj self.gk (decayed free self.gq self.gp) self.gmode }
    {
        self.gq = generator_envelope::decayed(free, self.gq, self.gp);
        self
    }

    // Whether step 7 overflows.
    pub fn overflows(self) -> bool
        requires { (self.gq < 2 ^ 24) × (self.gp < 2 ^ 20) }
        ensures { result ≡ overflows self.gq self.gp }
    {
        generator_envelope::overflows(self.gq, self.gp)
    }

    // Another run mode, the other bits of GMODE kept.
    fn with_run_mode(mut self, run: u32) -> Generator
        requires { run < 2 ^ 4 }
        ensures { result ≡ updated self self.gj self.gk self.gq (with_run_mode run self.gmode) }
    {
        self.gmode = run * 64 + self.gmode % 64;
        self
    }

    // Steps 2 and 4, where the oscillator is on.
    #[tactic(auto, unfolding(crate::specs::AsCoded::oscillated))]
    pub fn oscillate(self, on: bool, j: u32) -> Generator
        requires ranged { Ranged self }
        requires j_bound { j < 2 ^ 20 }
        ensures { result ≡ oscillated on self j }
    {
        if on { self.sweep().turn(j) } else { self }
    }

    // Whether the exact sum of step 1, or the sum of step 4 where it is done, leaves its range.
    #[tactic(auto, unfolding(crate::specs::AsCoded::left_by))]
    pub fn left_range(self, on: bool, exact: u32, j: u32) -> bool
        requires ranged { Ranged self }
        requires j_bound { j < 2 ^ 20 }
        ensures { result ≡ left_by on self (signed 32 exact) j }
    {
        // Not `||` and `&&`, which make a turn in the mode 0011 1.07 times as many instructions.
        if base_words::beyond::<20>(exact) {
            return true;
        }
        if on {
            return base_words::leaves_range::<20>(self.gk, j);
        }
        false
    }

    // Step 6 in the oscillator modes 0001, 0010 and 0011.
    fn shaped(self, on: bool, exact: u32, j: u32, k: u32) -> SignMagnitude
        requires ranged { Ranged self }
        requires j_bound { (j < 2 ^ 20) × (k < 2 ^ 13) }
        requires self_nonzero { (0 < oscillator_mode self) × (oscillator_mode self < 4) }
        ensures { Wave (wave_of (oscillator_mode self) k self.gn self.gm (left_by on self (signed 32 exact) j)) result }
    {
        match self.gmode % 16 {
            0b0001 => generator_oscillator::sawtooth(k),
            0b0010 => generator_oscillator::square::<13>(k),
            _ => generator_oscillator::pulse::<13>(self.left_range(on, exact, j)),
        }
    }

    // Steps 6 and 9 in the oscillator modes 0000 and 1000: P, of K and V.
    fn sine_under(self, sine: &Quarter, k: u32, v: u32) -> u32
        requires { (self.gm < 2 ^ 4) × (k < 2 ^ 13) × (v < 2 ^ 12) }
        ensures { result ≡ low_bits 20 (enveloped (sine_wave k self.gm) v) }
    {
        generator_envelope::enveloped(generator_oscillator::sine_wave(sine, k, self.gm), v)
    }

    // Steps 6 and 9 in the oscillator mode 0100.
    fn cosines_under(self, sine: &Quarter, k: u32, v: u32) -> u32
        requires { (self.gn < 2 ^ 11) × (self.gm < 2 ^ 4) × (k < 2 ^ 13) × (v < 2 ^ 12) }
        ensures { result ≡ low_bits 20 (enveloped (sum_of_cosines k self.gn self.gm) v) }
    {
        generator_envelope::enveloped(
            generator_oscillator::sum_of_cosines(sine, k, self.gn, self.gm),
            v,
        )
    }

    // Steps 3 and 6 to 9: P, of the exact sum of step 1, J and whether the oscillator is on.
    fn output(self, tables: &Tables, on: bool, exact: u32, j: u32) -> u32
        requires ranged { Ranged self }
        requires j_bound { j < 2 ^ 20 }
        ensures { result ≡ output_by on self (signed 32 exact) j }
    {
        let v = generator_envelope::level(&tables.decay, self.gmode / 16 % 4, self.gl, self.gq);
        // K is written in each arm: one K for all arms makes a turn 1.07 times as many instructions.
        let mode = self.gmode % 16;
        match mode {
            0b1000 => self.sine_under(&tables.sine, j / 128, v),
            0b0100 => self.cosines_under(&tables.sine, self.gk / 128, v),
            0b0001..=0b0011 => {
                generator_envelope::enveloped(self.shaped(on, exact, j, self.gk / 128), v)
            }
            _ => self.sine_under(&tables.sine, self.gk / 128, v),
        }
    }

    // Steps 2, 4 and 7 where the envelope is on, by a run mode's switches: the registers with GMODE as it was, P, and whether a free envelope overflows.
    #[tactic(auto, unfolding(crate::specs::AsCoded::advanced_by))]
    pub fn advance(self, on: Switches, j: u32, p: u32) -> Sounded
        requires ranged { Ranged self }
        requires j_bound { j < 2 ^ 20 }
        ensures { result ≡ advanced_by on self j p }
    {
        let turned = self.oscillate(on.oscillator, j);
        // An arm for each: one struct with `self.overflows() && on.free` makes a turn 1.12 times as many instructions.
        if self.overflows() {
            Sounded {
                unit: turned.decay(on.free),
                p,
                triggers: on.free,
            }
        } else {
            Sounded {
                unit: turned.decay(on.free),
                p,
                triggers: false,
            }
        }
    }

    // 1101 goes to 1001.
    #[tactic(auto, unfolding(crate::specs::AsCoded::ended_of))]
    fn ended(self) -> Generator
        ensures { result ≡ ended_of self }
    {
        if self.gmode / 64 == layout_modes::RUNNING_C {
            self.with_run_mode(layout_modes::WAIT)
        } else {
            self
        }
    }

    // The turn of a generator whose envelope is on; on is its run mode's switches.
    pub fn play(self, tables: &Tables, on: Switches, f: u32) -> Sounded
        requires ranged { Ranged self }
        requires on_value { (on ≡ switches_of (run_mode self)) × (envelope_on (run_mode self) ≡ true) }
        requires f_bound { f < 2 ^ 20 }
        ensures { result ≡ sounded_of self f }
    {
        let exact = self.phase(f);
        let j = base_words::low::<20>(exact);
        let p = self.output(tables, on.oscillator, exact, j);
        let sounded = self.advance(on, j, p);
        if sounded.triggers {
            Sounded {
                unit: sounded.unit.ended(),
                ..sounded
            }
        } else {
            sounded
        }
    }

    // The turn of a generator in 1001, told whether its lower neighbour has triggered in this pass.
    pub fn await_trigger(self, f: u32, below: bool) -> Generator
        requires ranged { Ranged self }
        requires self_value { (run_mode self ≡ wait) × (f < 2 ^ 20) }
        ensures { result ≡ after self f below }
    {
        let j = base_words::low::<20>(self.phase(f));
        let turned = self.oscillate(true, j);
        if below {
            turned.with_run_mode(layout_modes::RUNNING_C)
        } else {
            turned
        }
    }
}
