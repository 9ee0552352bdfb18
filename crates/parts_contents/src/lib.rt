// Contents that show which point fails, written into a run of a machine's words and into a read list.
#![tactic(auto)]

ghost use Rattle.std.specs.Prelude.{◌≡◌, ◌+◌, ◌≤◌, length};
ghost use Rattle.layout.specs.Layout.{machine_length, generators};
ghost use Rattle.base_fills.specs.Fills.{filled};
ghost use Rattle.parts_model.specs.Contents.{with_columns, inactive_modifiers, with_last, triggering_contents, own_numbers, sending_contents, wave_columns, sounding_contents, contents_for, item_for};

use layout_texts::Text;

// Copies a run into another of its length. By a loop: copy_from_slice would ask a host without a C library for memmove.
fn copy(from: &[u32], run: &mut [u32])
    requires { length run.old ≡ length from.now }
    ensures { run.new ≡ from.now }
{
    for i in 0..from.len() {
        run[i] = from[i];
    }
}

// The machine, with every modifier inactive.
fn inactive(m: &[u32], run: &mut [u32])
    requires { (length m.now ≡ machine_length) × (length run.old ≡ machine_length) }
    ensures { run.new ≡ inactive_modifiers m.now }
{
    copy(m, run);
    base_fills::fill(
        run,
        layout::MODIFIERS_AT + layout::MMODE,
        layout::MODIFIER_WORDS,
        layout::MODIFIERS,
        0,
    );
}

// Every envelope that is on overflows.
fn triggering(m: &[u32], run: &mut [u32])
    requires { (length m.now ≡ machine_length) × (length run.old ≡ machine_length) }
    ensures { run.new ≡ triggering_contents m.now }
{
    inactive(m, run);
    base_fills::fill(
        run,
        layout::GP,
        layout::GENERATOR_WORDS,
        layout::GENERATORS,
        1,
    );
    base_fills::fill(
        run,
        layout::GQ,
        layout::GENERATOR_WORDS,
        layout::GENERATORS,
        layout::GQ_LIMIT - 1,
    );
}

// Every F is one word.
fn level_last(m: &[u32], word: u32, run: &mut [u32])
    requires { (length m.now ≡ machine_length) × (length run.old ≡ machine_length) }
    ensures { run.new ≡ with_last (λ w. word) (λ w. word) m.now }
{
    inactive(m, run);
    base_fills::fill(
        run,
        layout::GENERATOR_LAST_AT,
        1,
        layout::QUADRANT_WORDS,
        word,
    );
    base_fills::fill(
        run,
        layout::MODIFIER_LAST_AT,
        1,
        layout::QUADRANT_WORDS,
        word,
    );
}

// The word at each GFM is that GFM.
fn numbered_last(m: &[u32], run: &mut [u32])
    requires { (length m.now ≡ machine_length) × (length run.old ≡ machine_length) }
    ensures { run.new ≡ with_last (λ w. w) (λ w. 64 + w) m.now }
{
    inactive(m, run);
    base_fills::count(
        run,
        layout::GENERATOR_LAST_AT,
        1,
        layout::QUADRANT_WORDS,
        0,
        1,
    );
    base_fills::count(
        run,
        layout::MODIFIER_LAST_AT,
        1,
        layout::QUADRANT_WORDS,
        64,
        1,
    );
}

// GK and the high 20 bits of GJ are the generator's number, and every F is 0.
fn own_numbers(m: &[u32], run: &mut [u32])
    requires { (length m.now ≡ machine_length) × (length run.old ≡ machine_length) }
    ensures { run.new ≡ with_columns own_numbers (with_last (λ w. 0) (λ w. 0) m.now) }
{
    let step = layout::GENERATOR_WORDS;
    let n = layout::GENERATORS;
    level_last(m, 0, run);
    base_fills::count(run, layout::GK, step, n, 0, 1);
    base_fills::count(run, layout::GJ, step, n, 0, 256);
}

// What is sent tells its source.
fn sending(text: Text, m: &[u32], run: &mut [u32])
    requires { (length m.now ≡ machine_length) × (length run.old ≡ machine_length) }
    ensures { run.new ≡ sending_contents text m.now }
{
    match text {
        Text::Of1978 => numbered_last(m, run),
        Text::Old => own_numbers(m, run),
    }
}

// GK and GN with which no wave is 0.
fn waves(text: Text, run: &mut [u32])
    requires { length run.old ≡ machine_length }
    ensures { run.new ≡ with_columns (wave_columns text) run.old }
{
    let step = layout::GENERATOR_WORDS;
    let n = layout::GENERATORS;
    match text {
        Text::Of1978 => {
            base_fills::fill(run, layout::GN, step, n, 1);
            base_fills::fill(run, layout::GK, step, n, 128);
        }
        Text::Old => base_fills::fill(run, layout::GK, step, n, 256),
    }
}

// Generator s alone sounds; none does where s is no generator's number.
fn sounding(text: Text, m: &[u32], s: usize, run: &mut [u32])
    requires { (length m.now ≡ machine_length) × (length run.old ≡ machine_length) }
    ensures { run.new ≡ sounding_contents text m.now s }
{
    let step = layout::GENERATOR_WORDS;
    let n = layout::GENERATORS;
    level_last(m, 1, run);
    waves(text, run);
    base_fills::fill(run, layout::GJ, step, n, 134217472);
    base_fills::fill(run, layout::GM, step, n, 0);
    base_fills::fill(run, layout::GQ, step, n, 0);
    parts_levels::levels(text, m, s, run);
}

// Contents with the settings of a machine that show where a point fails; generator s is to sound for the fourth.
pub fn contents(text: Text, m: &[u32], point: u32, s: usize, run: &mut [u32])
    requires { (length m.now ≡ machine_length) × (length run.old ≡ machine_length) }
    ensures { run.new ≡ contents_for text m.now point s }
{
    if point == 1 {
        triggering(m, run);
        return;
    }
    if point == 4 {
        sounding(text, m, s, run);
        return;
    }
    sending(text, m, run);
}

// The items that go with them, for n generators that read data.
pub fn items(point: u32, s: usize, n: usize, run: &mut [u32])
    requires { (n ≤ length run.old) × (n ≤ generators) }
    ensures { run.new ≡ filled 0 1 n (item_for point s) run.old }
{
    if (point == 4) & (s == layout::GENERATORS) {
        base_fills::count(run, 0, 1, n, 0, 1);
        return;
    }
    base_fills::fill(run, 0, 1, n, 0);
}
