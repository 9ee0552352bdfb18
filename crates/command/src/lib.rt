// One command in its turn: its questions, and what it does.
#![tactic(auto)]

ghost use Rattle.std.specs.Prelude.{◌≡◌, false};
ghost use Rattle.layout.specs.Machine.{Reaches};
ghost use Rattle.base_questions.specs.Refusals.{refused, answer_or};
ghost use Rattle.command_built.specs.Built.{command_refusal};
ghost use Rattle.command.specs.Command.{done, waits, after_command, taken_waiting};

use base_questions::Refusal;

// What a command that passes its questions does, by its code: MISC, DLY, TIMER, TICKS, and the loads. Whether it waits.
fn perform(m: &mut [u32], c: u32) -> bool
    requires { Reaches m.old }
    ensures { (result ≡ waits m.old c) × (m.new ≡ done m.old c) }
{
    match command_fields::field(c, 24, 28) {
        0b00000 => {
            command_misc::miscellany(m, c);
            false
        }
        0b00001 => {
            command_delay::load(m, c);
            false
        }
        0b00010 => command_timer::timer(m, c),
        0b00011 => {
            command_timer::ticks(m, c);
            false
        }
        0b00100..=0b10111 => {
            command_generator::load(m, c);
            false
        }
        _ => {
            command_modifier::load(m, c);
            false
        }
    }
}

// A command's turn: whether it is a Linger that waits. A refused one leaves the machine as it is.
pub fn take(m: &mut [u32], c: u32) -> Result<bool, Refusal>
    requires { Reaches m.old }
    ensures { (refused result ≡ command_refusal c) × (answer_or false result ≡ taken_waiting m.old c) × (m.new ≡ after_command m.old c) }
{
    command_built::refusal(c)?;
    Ok(perform(m, c))
}
