// What parts two orders of the generators: the first point that fails, and contents that show it.
#![tactic(auto)]

ghost use Rattle.std.specs.Prelude.{◌≡◌, ◌<◌, IfOk, IfSome};
ghost use Rattle.base_questions.specs.Refusals.{refused};
ghost use Rattle.parts.specs.Parts.{parts_refusal, parts_of, parting_of};

use base_questions::Refusal;
use layout_texts::Text;

// What parts two orders: the first point that fails, by its number, 1 to 4, which the C interface hands on, and the lowest place at which it fails.
#[derive(Clone, Copy)]
pub struct Parted {
    pub point: u32,
    pub place: u32,
}

// The first question of the call that is answered no, if one is.
fn refusal(
    text: Text,
    m: &[u32],
    first: &[u32],
    second: &[u32],
    contents: &[u32],
    items: &[u32],
) -> Result<(), Refusal>
    ensures { refused result ≡ parts_refusal text m.now first.now second.now contents.now items.now }
{
    compare::refusal(text, m, first, second)?;
    if contents.len() != layout::MACHINE_LENGTH {
        return Err(Refusal::MachineLength);
    }
    let counts = pass_order::in_modes(text, m);
    if items.len() < counts.reads {
        return Err(Refusal::ReadItems);
    }
    Ok(())
}

// What parts two orders of a machine's generators, if they aren't equal: contents and items show it. A refused call, and one about equal orders, leaves both as they are.
pub fn parts(
    text: Text,
    m: &[u32],
    first: &[u32],
    second: &[u32],
    contents: &mut [u32],
    items: &mut [u32],
) -> Result<Option<Parted>, Refusal>
    ensures value { parting_of result contents.new items.new ≡ parts_of text m.now first.now second.now contents.old items.old }
    ensures some_point { IfOk result (λ parted. IfSome parted (λ p. 0 < p.point)) }
{
    refusal(text, m, first, second, contents, items)?;
    let Some(failing) = compare_first::first_point(text, m, first, second) else {
        return Ok(None);
    };
    let counts = pass_order::in_modes(text, m);
    parts_contents::contents(text, m, failing.point, failing.sounding, contents);
    parts_contents::items(failing.point, failing.sounding, counts.reads, items);
    Ok(Some(Parted {
        point: failing.point,
        place: failing.place,
    }))
}
