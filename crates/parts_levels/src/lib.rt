// GL of the generators where one of them sounds and all others are silent.
#![tactic(auto)]

ghost use Rattle.std.specs.Prelude.{◌≡◌, ◌^◌, ◌<◌, length};
ghost use Rattle.layout.specs.Layout.{machine_length, generators, generator_words, GL};
ghost use Rattle.layout.specs.Machine.{Reaches};
ghost use Rattle.layout.specs.Widths.{gl_bits};
ghost use Rattle.base_fills.specs.Fills.{filled};
ghost use Rattle.parts_model.specs.Contents.{silent_level, sounding_level};

use layout_texts::Text;

// GL at which V is 0 where GQ is 0, by the envelope mode in GMODE.
fn silent_level(text: Text, gmode: u32) -> u32
    ensures { (result ≡ silent_level text gmode) × (result < 2 ^ gl_bits) }
{
    match text {
        Text::Of1978 => {
            let levels: [u32; 4] = [0, 0, 4093, 3];
            levels[layout::wide(gmode / 16 % 4)]
        }
        Text::Old => {
            let levels: [u32; 4] = [0, 0, 3, 4093];
            levels[layout::wide(gmode / 8 % 4)]
        }
    }
}

// GL of generator g where only generator s sounds.
fn level(text: Text, m: &[u32], s: usize, g: usize) -> u32
    requires { Reaches m.now × (g < generators) }
    ensures { result ≡ sounding_level text m.now s g }
{
    let silent = silent_level(text, m[layout::GENERATOR_WORDS * g + layout::GMODE]);
    if g == s {
        return (silent + 64) % layout::GL_LIMIT;
    }
    silent
}

// GL of each generator where only generator s sounds.
pub fn levels(text: Text, m: &[u32], s: usize, run: &mut [u32])
    requires { Reaches m.now × (length run.old ≡ machine_length) }
    ensures { run.new ≡ filled GL generator_words generators (sounding_level text m.now s) run.old }
{
    for g in 0..layout::GENERATORS {
        run[layout::GL + layout::GENERATOR_WORDS * g] = level(text, m, s, g);
    }
}
