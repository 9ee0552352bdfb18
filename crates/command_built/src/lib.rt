// Questions 3 and 4, which every command is asked.
#![tactic(auto)]

ghost use Rattle.std.specs.Prelude.{◌≡◌};
ghost use Rattle.base_questions.specs.Refusals.{refused};
ghost use Rattle.command_built.specs.Built.{built_gmode, built_mmode, built_mrm, built, ticks_fit, command_refusal};

use base_questions::Refusal;
use command_fields::{field, flag};

// GMODE disabled, or its modes built.
fn built_gmode(c: u32) -> bool
    ensures { result ≡ built_gmode c }
{
    let gmode = field(c, 7, 16);
    flag(c, 4) | (layout_modes::built_run(gmode / 64) & layout_modes::built_oscillator(gmode % 16))
}

// The function of MMODE disabled, or built.
fn built_mmode(c: u32) -> bool
    ensures { result ≡ built_mmode c }
{
    flag(c, 4) | layout_codes::built_function(field(c, 8, 12))
}

// MRM and MIN, each disabled or without top bits 11.
fn built_mrm(c: u32) -> bool
    ensures { result ≡ built_mrm c }
{
    let mrm = flag(c, 4) | machine::built_address(field(c, 8, 15));
    let min = flag(c, 5) | machine::built_address(field(c, 16, 23));
    mrm & min
}

// Question 3: a command is built, its modes and addresses too, disabled fields aside.
pub fn built(c: u32) -> bool
    ensures { result ≡ built c }
{
    match field(c, 24, 28) {
        0b00000 => (field(c, 29, 30) < 0b10) & !flag(c, 35),
        0b00001 => command_delay::built_dly(c),
        0b00011 => !flag(c, 31),
        0b10100 | 0b10101 => built_gmode(c),
        0b11110 => built_mmode(c),
        0b11111 => built_mrm(c),
        _ => true,
    }
}

// Question 4: a TICKS Q 0 number is at most 255.
pub fn ticks_fit(c: u32) -> bool
    ensures { result ≡ ticks_fit c }
{
    (field(c, 24, 28) != 0b00011) | flag(c, 32) | (field(c, 14, 23) <= 255)
}

// The first of questions 3 and 4 that is answered no, if one is.
pub fn refusal(c: u32) -> Result<(), Refusal>
    ensures { refused result ≡ command_refusal c }
{
    if !built(c) {
        return Err(Refusal::BuiltCommand);
    }
    if !ticks_fit(c) {
        return Err(Refusal::TicksNumber);
    }
    Ok(())
}
