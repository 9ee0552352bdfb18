// The texts that a machine can follow, and what stands in a generator's words by a text. Elsewhere a text is only handed on.
#![tactic(auto)]

ghost use Rattle.std.specs.Prelude.{◌≡◌, ◌<◌};
ghost use Rattle.layout.specs.Machine.{Reaches};
ghost use Rattle.layout_texts.specs.Texts.{run_mode_at, dac_number_at, source_at, distance_of};

// A specification: that of 1978, and the older one.
#[derive(Clone, Copy)]
pub enum Text {
    Of1978,
    Old,
}

// How far below a generator its lower neighbour stands.
pub fn distance(text: Text) -> usize
    ensures { result ≡ distance_of text }
{
    match text {
        Text::Of1978 => 1,
        Text::Old => 2,
    }
}

// The run mode of generator g, in the 1978 coding.
pub fn run_mode(text: Text, m: &[u32], g: usize) -> u32
    requires reaches { Reaches m.now }
    requires g_bound { g < 256 }
    ensures { result ≡ run_mode_at text m.now g }
{
    match text {
        Text::Of1978 => m[layout::GENERATOR_WORDS * g + layout::GMODE] / 64,
        Text::Old => {
            let gmode = m[layout::GENERATOR_WORDS * g + layout::GMODE];
            layout_old_modes::run_mode(gmode, m[layout::GENERATOR_WORDS * g + layout::GN])
        }
    }
}

// The DAC number of generator g.
pub fn dac_number(text: Text, m: &[u32], g: usize) -> usize
    requires reaches { Reaches m.now }
    requires g_bound { g < 256 }
    ensures { (result ≡ dac_number_at text m.now g) × (result < 16) }
{
    match text {
        Text::Of1978 => layout::wide(m[layout::GENERATOR_WORDS * g + layout::GO] % 16),
        Text::Old => layout::wide(m[layout::GENERATOR_WORDS * g + layout::GN] % 16),
    }
}

// What tells apart what generator g sends from what others send.
pub fn source(text: Text, m: &[u32], g: usize) -> u32
    requires reaches { Reaches m.now }
    requires g_bound { g < 256 }
    ensures { result ≡ source_at text m.now g }
{
    match text {
        Text::Of1978 => layout::gfm(m, g),
        Text::Old => g as u32,
    }
}
