// By what the passes of a bench file go: by number, by pitch, or by an order file.
#![tactic(auto)]

ghost use Rattle.std.specs.Prelude.{◌≡◌, ◌≤◌, IfOk, option_map};
ghost use Rattle.layout.specs.Layout.{generators};
ghost use Rattle.layout.specs.Machine.{Reaches, ticks_of};
ghost use Rattle.base_questions.specs.Refusals.{refused};
ghost use Rattle.pass_pitch.specs.Pitch.{by_pitch};
ghost use Rattle.ring_pass.specs.BenchPass.{ordering_of};
ghost use Rattle.ring_order.specs.RungOrder.{by_name, ordering_by, order_refusal};
ghost use Rattle.ring_order.specs.Filled.{filled_part, InRoom};

use base_questions::Refusal;
use file_order::Entries;

// The three ways.
#[derive(Clone, Copy)]
pub enum By {
    Number,
    Pitch,
    File,
}

// What an argument asks for: `-` the order by pitch, any other the order file of that name.
pub fn by_name(name: &[u8]) -> By
    ensures { result ≡ by_name name.now }
{
    if name.len() != 1 {
        return By::File;
    }
    if file_bytes::starts(name, b"-") {
        return By::Pitch;
    }
    By::File
}

// The order by pitch. A machine with more ticks than generators, which no pass lets through, has none.
fn fill_by_pitch(m: &[u32]) -> Entries
    requires { Reaches m.now }
    ensures count_bound { InRoom (Some result) }
    ensures entries_value { ticks_of m.now ≤ generators → filled_part result ≡ by_pitch m.now }
{
    let mut entries = [0u32; layout::GENERATORS];
    let t = layout::ticks(m);
    if layout::GENERATORS < t {
        return Entries { count: 0, entries };
    }
    pass_pitch::by_pitch(m, &mut entries);
    Entries { count: t, entries }
}

// The order that the passes from a machine go by, which is by number where there is none. A file that is no order file is refused.
pub fn fill(by: By, file: &[u8], m: &[u32]) -> Result<Option<Entries>, Refusal>
    requires { Reaches m.now }
    ensures number_value { refused result ≡ order_refusal by file.now }
    ensures entries_value { IfOk result (λ filled. InRoom filled × (ticks_of m.now ≤ generators → ordering_of (option_map filled_part filled) ≡ ordering_by by file.now m.now)) }
{
    match by {
        By::Number => Ok(None),
        By::Pitch => Ok(Some(fill_by_pitch(m))),
        By::File => {
            let entries = file_order::read(file)?;
            Ok(Some(entries))
        }
    }
}
