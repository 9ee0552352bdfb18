// Which lines may follow one another in a bench file.
#![tactic(auto)]

ghost use Rattle.std.specs.Prelude.{◌≡◌};
ghost use Rattle.file_phases.specs.Phases.{after_title, after_passes, after_word, first_command, after_command, phase_after, is_fit};

use file_lines::Line;
use layout_texts::Text;

// Which lines may follow: `text=` and `passes=`; only `passes=`; `word=` and `command=`; only `command=`; none, since a line before may not stand there.
#[derive(Clone, Copy, PartialEq, Eq)]
pub enum Phase {
    Start,
    Headed,
    Words,
    Commands,
    Unfit,
}

// The phase after a `text=` line: a second one, and one after `passes=`, are unfit.
fn after_title(phase: Phase) -> Phase
    ensures { result ≡ after_title phase }
{
    match phase {
        Phase::Start => Phase::Headed,
        Phase::Headed | Phase::Words | Phase::Commands | Phase::Unfit => Phase::Unfit,
    }
}

// The phase after a `passes=` line: a second one is unfit.
fn after_passes(phase: Phase) -> Phase
    ensures { result ≡ after_passes phase }
{
    match phase {
        Phase::Start | Phase::Headed => Phase::Words,
        Phase::Unfit | Phase::Words | Phase::Commands => Phase::Unfit,
    }
}

// The phase after a `word=` line: one after a `command=` line is unfit.
fn after_word(phase: Phase) -> Phase
    ensures { result ≡ after_word phase }
{
    match phase {
        Phase::Words => Phase::Words,
        Phase::Start | Phase::Headed | Phase::Commands | Phase::Unfit => Phase::Unfit,
    }
}

// The phase after a first `command=` line: an old file has none.
fn first_command(title: Option<Text>) -> Phase
    ensures { result ≡ first_command title }
{
    match title {
        Some(Text::Old) => Phase::Unfit,
        Some(Text::Of1978) | None => Phase::Commands,
    }
}

// The phase after a `command=` line.
fn after_command(title: Option<Text>, phase: Phase) -> Phase
    ensures { result ≡ after_command title phase }
{
    match phase {
        Phase::Start | Phase::Headed | Phase::Unfit => Phase::Unfit,
        Phase::Words => first_command(title),
        Phase::Commands => Phase::Commands,
    }
}

// The phase after a line, in a file of a title.
pub fn phase_after(title: Option<Text>, phase: Phase, line: Line) -> Phase
    ensures { result ≡ phase_after title phase line }
{
    match line {
        Line::Titled(_) => after_title(phase),
        Line::Passes(_) => after_passes(phase),
        Line::Word(_, _) => after_word(phase),
        Line::Command(_) => after_command(title, phase),
        Line::Other => Phase::Unfit,
    }
}

// Whether the lines so far are those of a bench file.
pub fn fit(phase: Phase) -> bool
    ensures { result ≡ is_fit phase }
{
    matches!(phase, Phase::Words | Phase::Commands)
}
