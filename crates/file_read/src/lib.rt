// A bench file read into runs that a host hands in: its questions first, then what it says is put there.
#![tactic(auto)]

ghost use Rattle.std.specs.Prelude.{◌≡◌};
ghost use Rattle.file_read.specs.Read.{text_number, read_answer, read_into};

use base_questions::Refusal;
use layout_texts::Text;

// What the call answers: the number of the file's text, its passes, and how many commands it has.
#[derive(Clone, Copy)]
pub struct ReadAnswer {
    pub text: u32,
    pub passes: u32,
    pub count: usize,
}

// The number that names a text. No `From<Text> for u32`: an impl stands beside its trait or its type, and those are layout_texts' and core's.
fn text_number(text: Text) -> u32
    ensures { result ≡ text_number text }
{
    match text {
        Text::Of1978 => 0,
        Text::Old => 1,
    }
}

// Reads a bench file: the machine that it says, and its commands from the first place on. A refused call changes nothing.
pub fn read(file: &[u8], m: &mut [u32], places: &mut [u32]) -> Result<ReadAnswer, Refusal>
    ensures { read_answer result m.new places.new ≡ read_into file.now m.old places.old }
{
    let contents = file_bench::judge_file(file)?;
    let words = m.len();
    if words != layout::MACHINE_LENGTH {
        return Err(Refusal::MachineLength);
    }
    let count = contents.count;
    if places.len() < count {
        return Err(Refusal::WrittenPlaces);
    }
    file_bench::load_file(file, m, places);
    Ok(ReadAnswer {
        text: text_number(contents.text),
        passes: contents.passes,
        count,
    })
}
