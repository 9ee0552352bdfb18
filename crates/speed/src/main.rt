// The benchmark's job over the proved leaves: turns of 256 generators, or products, many times over; prints a checksum.
// The same job stands in plain C in benchmarks/leaves.c.
#![tactic(auto)]

ghost use Rattle.std.specs.Prelude.{◌≡◌, ◌^◌, ◌<◌, true};
ghost use Rattle.layout_modes.specs.Modes.{switches_of, envelope_on};
ghost use Rattle.generator.specs.Generator.{Ranged, run_mode};

use generator::{Generator, Tables};
use layout_modes::Switches;
use modifier_product::Product;

// 256 generators, eleven words to each, the words that sum what they give, and the tables.
#[derive(Drop)]
struct Bank {
    words: [u32; 2816],
    sums: [u32; 64],
    tables: Tables,
}

impl Bank {
    // Generator n.
    fn generator_at(&self, n: usize) -> Generator
        requires { n < 256 }
        ensures { Ranged result }
    {
        let at = 11 * n;
        Generator::load(&self.words[at..])
    }

    fn put_generator_at(&mut self, n: usize, unit: Generator)
        requires { n < 256 }
    {
        let at = 11 * n;
        unit.store(&mut self.words[at..]);
    }

    // The word that a number names, and P added into such a word.
    fn sum_at(&self, at: u32) -> u32
        ensures { result < 2 ^ 20 }
    {
        let i = (at % 64) as usize;
        self.sums[i] % 1048576
    }

    fn add_at(&mut self, at: u32, p: u32) {
        let i = (at % 64) as usize;
        self.sums[i] = base_words::add::<20>(self.sums[i] % 1048576, p % 1048576);
    }

    // The turn of generator n, whose envelope is on: whether it triggers.
    fn sound_at(&mut self, n: usize, unit: Generator, on: Switches) -> bool
        requires n_bound { n < 256 }
        requires ranged { Ranged unit }
        requires on_value { (on ≡ switches_of (run_mode unit)) × (envelope_on (run_mode unit) ≡ true) }
    {
        let f = self.sum_at(unit.gfm);
        let sounded = unit.play(&self.tables, on, f);
        self.add_at(unit.gsum, sounded.p);
        self.put_generator_at(n, sounded.unit);
        sounded.triggers
    }

    // The turn of generator n: whether its envelope is on and it triggers.
    fn turn_at(&mut self, n: usize) -> bool
        requires { n < 256 }
    {
        let unit = self.generator_at(n);
        let on = self.tables.switches.switches_of(unit.gmode / 64);
        on.envelope && self.sound_at(n, unit, on)
    }

    // One turn of each generator: how many triggered, and those before.
    fn round(&mut self, fired: u32) -> u32 {
        let mut fired = fired;
        for n in 0..256 {
            fired = fired.wrapping_add(u32::from(self.turn_at(n)));
        }
        fired
    }

    // Rounds of the generators: how many triggered.
    fn rounds(&mut self, count: u32) -> u32 {
        let mut fired: u32 = 0;
        for _ in 0..count {
            fired = self.round(fired);
        }
        fired
    }

    // Rounds of the generators, and the checksum of the sums, the generators and how many triggered.
    fn generators(&mut self, count: u32) -> u32 {
        let fired = self.rounds(count);
        mixed(mixed_all(mixed_all(0, &self.sums), &self.words), fired)
    }

    fn checksum(&mut self, job: u32, count: u32) -> u32 {
        match job {
            0 => self.generators(count),
            _ => products(self.words[0], count),
        }
    }
}

// The words of the input after the first two.
fn words_of(input: &[u8; 11272]) -> [u32; 2816] {
    let mut words = [0u32; 2816];
    for (i, word) in words.iter_mut().enumerate() {
        *word = trial_octets::word_at(input, i + 2);
    }
    words
}

// A checksum goes on: 31 times it, plus x.
fn mixed(check: u32, x: u32) -> u32 {
    let wide = check % 134217728 * 32;
    wide.wrapping_sub(check).wrapping_add(x)
}

// The checksum goes on over a run of words.
fn mixed_all(check: u32, words: &[u32]) -> u32 {
    words.iter().fold(check, |check, x| mixed(check, *x))
}

// One product, added to its first factor.
fn multiplied(x: u32, i: u32) -> u32
    requires { x < 2 ^ 20 }
    ensures { result < 2 ^ 20 }
{
    let other = (x * 5).wrapping_add(i) % 1048576;
    let product = modifier_product::multiply(Product::Rounded, i % 4, x, other) % 1048576;
    base_words::add::<20>(product, x)
}

fn products(x: u32, count: u32) -> u32 {
    let mut x = x % 1048576;
    for i in 0..count {
        x = multiplied(x, i);
    }
    x
}

// The input is two words, job and count, and the eleven words of 256 generators. The tables are copied once, as the plain C reads its own.
fn main(rt: HostRuntime) {
    let mut input = [0u8; 11272];
    let n = trial_octets::read_full(&mut rt.stdin(), &mut input);
    if n < 11272 {
        return;
    }
    let job = trial_octets::word_at(&input, 0);
    let count = trial_octets::word_at(&input, 1);
    let mut bank = Bank {
        words: words_of(&input),
        sums: [0u32; 64],
        tables: Tables::new(),
    };
    let _ = rt.println(bank.checksum(job, count));
}
