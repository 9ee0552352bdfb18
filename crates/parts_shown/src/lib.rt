// By what passes from the contents for two orders differ.
#![tactic(auto)]

ghost use Rattle.std.specs.Prelude.{◌≡◌, length};
ghost use Rattle.pass_model.specs.Pass.{plain_call, pass_of};
ghost use Rattle.parts_shown.specs.Shown.{first_different, difference_shown};

use layout_texts::Text;

// By what two passes differ: a word of the machine, or an item of the written data.
#[derive(Clone, Copy, PartialEq, Eq, Debug)]
pub enum Difference {
    Word(usize),
    Written(usize),
}

// The first place at which two runs differ; the shorter one's length where they don't before.
fn first_different(first: &[u32], second: &[u32]) -> usize
    ensures { result ≡ first_different first.now second.now }
{
    for i in 0..first.len() {
        if second.len() <= i {
            return i;
        }
        if first[i] != second[i] {
            return i;
        }
    }
    first.len()
}

// A pass from contents by an order, over a delay memory of zeros: what it leaves of the machine and the places, and how many items it wrote, 0 where it is refused.
fn pass_by(
    text: Text,
    contents: &[u32],
    order: &[u32],
    items: &[u32],
    m: &mut [u32],
    places: &mut [u32],
) -> usize
    requires { length m.old ≡ length contents.now }
    ensures value { result ≡ (pass_of text contents.now (plain_call order.now items.now places.old)).written }
    ensures m_after { m.new ≡ (pass_of text contents.now (plain_call order.now items.now places.old)).machine }
    ensures places_after { places.new ≡ (pass_of text contents.now (plain_call order.now items.now places.old)).places }
{
    let mut memory = [0u32; layout::MEMORY_WORDS];
    m.copy_from_slice(contents);
    match pass::pass(text, m, order, items, places, &mut memory) {
        Ok(passed) => passed.written,
        Err(_) => 0,
    }
}

// By what passes from contents by two orders differ: the first word of the machine, and where none does the first written item.
pub fn differ_by(
    text: Text,
    contents: &[u32; layout::MACHINE_LENGTH],
    items: &[u32],
    first: &[u32],
    second: &[u32],
) -> Difference
    ensures { result ≡ difference_shown text contents.now items.now first.now second.now }
{
    let mut m = [0u32; layout::MACHINE_LENGTH];
    let mut places = [0u32; layout::GENERATORS];
    let written = pass_by(text, contents, first, items, &mut m, &mut places);
    let mut other = [0u32; layout::MACHINE_LENGTH];
    let mut other_places = [0u32; layout::GENERATORS];
    let other_written = pass_by(text, contents, second, items, &mut other, &mut other_places);
    let word = first_different(&m, &other);
    if word < layout::MACHINE_LENGTH {
        return Difference::Word(word);
    }
    let item = first_different(&places[..written], &other_places[..other_written]);
    Difference::Written(item)
}
