// The beginning of a ringing: the machine and the commands of a bench file, a delay memory of zeros, no command taken, and the order that its passes go by.
#![tactic(auto)]

ghost use Rattle.std.specs.Prelude.{◌≡◌, ◌≢◌, ℕ, ◌≤◌, List, [], length, take, option_copied, option_map, IfOk, IfErr};
ghost use Rattle.layout.specs.Machine.{Machine, Memory};
ghost use Rattle.base_lists.specs.Lists.{zeros};
ghost use Rattle.file_printed.specs.Text.{line_bytes};
ghost use Rattle.file_bench.specs.BenchFile.{read_of, command_places};
ghost use Rattle.ring_order.specs.Filled.{filled_part, InRoom};
ghost use Rattle.ring_steps.specs.Ringing.{memory_at_first, output_of};
ghost use Rattle.ring_steps.specs.AsCoded.{ringing_at};
ghost use Rattle.ring_begin.specs.AsCoded.{refused_line, ringing_of, printed_on};
ghost use Rattle.ring_begin.specs.Begun.{line_of, Begins};

use file_order::Entries;
use layout_texts::Text;
use ring_order::By;
use ring_steps::Progress;

mod line;

pub use line::Line;

// A beginning: the text, how many passes there are to ring and how many commands, and the order of the passes, which is by number where there is none.
#[derive(Clone, Copy)]
pub struct Beginning {
    pub text: Text,
    pub passes: u32,
    pub count: usize,
    pub order: Option<Entries>,
}

// The entries that there are.
fn filled_part(filled: &Entries) -> &[u32]
    requires { filled.now.count ≤ length filled.now.entries }
    ensures { result.now ≡ filled_part filled.now }
{
    &filled.entries[..filled.count]
}

impl Beginning {
    // How far the ringing is: all passes are left, no command is taken, and nothing is refused.
    pub fn start(&self) -> Progress
        ensures taken_value { result.taken ≡ 0 }
        ensures begins { (m : Machine) (memory : Memory) (room : List ℕ) → ringing_at result m memory (take self.now.count room) ≡ ringing_of self.now m memory room }
    {
        Progress {
            passes: self.passes,
            taken: 0,
            length: 0,
            end: Ok(()),
        }
    }

    // The entries of the order.
    pub fn order(&self) -> Option<&[u32]>
        requires { InRoom self.now.order }
        ensures { option_copied result ≡ option_map filled_part self.now.order }
    {
        match &self.order {
            Some(filled) => Some(filled_part(filled)),
            None => None,
        }
    }
}

// Begins to ring a bench file by number, by pitch or by an order file. What is refused is a line; else what is gathered from here is the whole output.
pub fn begin(
    file: &[u8],
    by: By,
    listing: &[u8],
    m: &mut [u32; layout::MACHINE_LENGTH],
    room: &mut [u32; file_bench::COMMAND_PLACES],
    memory: &mut [u32; layout::MEMORY_WORDS],
) -> Result<Beginning, Line>
    ensures machine_after { m.new ≡ (read_of file.now m.old (zeros command_places)).machine }
    ensures room_after { room.new ≡ (read_of file.now m.old (zeros command_places)).room }
    ensures memory_after { memory.new ≡ memory_at_first }
    ensures line_value { line_of result ≡ refused_line by listing.now file.now }
    ensures refused_value { IfErr result (λ _. refused_line by listing.now file.now ≢ []) }
    ensures begins { IfOk result (λ b. Begins b by listing.now (read_of file.now m.old (zeros command_places))) }
    ensures by_index { (size : ℕ) → line_bytes ≤ size → printed_on size result m.new memory.new room.new ≡ output_of by listing.now file.now }
{
    memory.fill(0);
    room.fill(0);
    let contents = match file_bench::read(file, m, room) {
        Ok(contents) => contents,
        Err(refusal) => return Err(Line::refused(refusal)),
    };
    let order = match ring_order::fill(by, listing, m) {
        Ok(order) => order,
        Err(refusal) => return Err(Line::order_refused(refusal)),
    };
    Ok(Beginning {
        text: contents.text,
        passes: contents.passes,
        count: contents.count,
        order,
    })
}
