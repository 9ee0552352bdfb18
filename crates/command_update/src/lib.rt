// An update: commands are taken one after the other, and the part of them not taken is handed back.
#![tactic(auto)]

ghost use Rattle.std.specs.Prelude.{◌≡◌, [], ◌∷◌, ◌≤◌, length, drop};
ghost use Rattle.layout.specs.Machine.{Reaches};
ghost use Rattle.base_questions.specs.Questions.{asked};
ghost use Rattle.base_questions.specs.Refusals.{refused};
ghost use Rattle.machine.specs.Questions.{question1, question2};
ghost use Rattle.command_update.specs.Update.{outcome, still_lingering, commands_taken_by, update_of, taken_count, tail_at};
ghost use Rattle.layout_texts.specs.declared.Text.TheVariants.{Of1978};

use base_questions::Refusal;
use layout_texts::Text;

// Whether it is lingering and the counter's low bits aren't the Linger pass.
fn still_lingering(m: &[u32]) -> bool
    requires { Reaches m.now }
    ensures { result ≡ still_lingering m.now }
{
    let lingering = m[layout::LINGERING_AT];
    let counter = m[layout::COUNTER_AT] % layout::LINGER_LIMIT;
    let pass = m[layout::LINGER_PASS_AT];
    (lingering == 1) & (counter != pass)
}

// What was taken: how many commands, and the question that refused the one after them, if one did.
#[derive(Clone, Copy)]
pub struct Taken {
    pub count: usize,
    pub end: Result<(), Refusal>,
}

// Takes at most so many commands.
fn run(m: &mut [u32], commands: &[u32], most: usize) -> Taken
    requires { Reaches m.old }
    ensures { (result.count ≤ length commands.now) × (outcome (refused result.end) m.new (drop result.count commands.now) ≡ commands_taken_by most m.old commands.now) }
{
    for (i, &command) in commands.iter().enumerate() {
        if i == most {
            return Taken {
                count: i,
                end: Ok(()),
            };
        }
        match command::take(m, command) {
            Ok(false) => {}
            Ok(true) => {
                return Taken {
                    count: i + 1,
                    end: Ok(()),
                };
            }
            Err(refusal) => {
                return Taken {
                    count: i,
                    end: Err(refusal),
                };
            }
        }
    }
    Taken {
        count: commands.len(),
        end: Ok(()),
    }
}

// An update of a machine that passes questions 1 and 2, so that its word has the update ticks of its N and T.
pub fn take_commands(m: &mut [u32], commands: &[u32]) -> Taken
    requires { asked (question1 m.old ∷ question2 Of1978 m.old ∷ []) ≡ 0 }
    ensures { (result.count ≤ length commands.now) × (outcome (refused result.end) m.new (drop result.count commands.now) ≡ update_of m.old commands.now) }
{
    if still_lingering(m) {
        return Taken {
            count: 0,
            end: Ok(()),
        };
    }
    let most = layout::wide(m[layout::UPDATE_TICKS_AT]);
    m[layout::LINGERING_AT] = 0;
    run(m, commands, most)
}

// What an update hands back: the part of the commands that it didn't take, and the question that refused it or the first of that part, if one did.
#[derive(Clone, Copy)]
pub struct Updated<'a> {
    pub rest: &'a [u32],
    pub end: Result<(), Refusal>,
}

// An update.
pub fn update<'a>(m: &mut [u32], commands: &'a [u32]) -> Updated<'a>
    ensures result_after { outcome (refused result.end) m.new result.rest.now ≡ update_of m.old commands.now }
    ensures ref_ptr_value { result.rest.ref_ptr ≡ tail_at commands.entry.ref_ptr (taken_count m.old commands.now) }
{
    if let Err(refusal) = machine::refusal(Text::Of1978, m) {
        return Updated {
            rest: commands,
            end: Err(refusal),
        };
    }
    let taken = take_commands(m, commands);
    Updated {
        rest: &commands[taken.count..],
        end: taken.end,
    }
}
