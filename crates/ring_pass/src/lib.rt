// A pass of the bench: by number or by an order that is given, with no read items and no written places. Its questions are asked apart from it, since a pass that is let through keeps its machine and delay memory good.
#![tactic(auto)]

ghost use Rattle.std.specs.Prelude.{◌≡◌, [], ◌∷◌, option_copied};
ghost use Rattle.base_questions.specs.Questions.{asked};
ghost use Rattle.base_questions.specs.Refusals.{refused};
ghost use Rattle.machine.specs.Questions.{question1, question2};
ghost use Rattle.pass_order.specs.Order.{question7, question8};
ghost use Rattle.ring_pass.specs.BenchPass.{passed, order_asked, refused_again};
ghost use Rattle.ring_pass.specs.Benches.{ordering_in, entries_in};

use base_questions::Refusal;
use layout_texts::Text;

mod numbers;

pub use generator::Tables;
pub use numbers::{Numbers, by_number};

// What the passes of a ringing go by: the text; the commands of its updates; the order, which is by number where none is given; and what every pass reads, that order and the tables.
#[derive(Clone, Copy)]
pub struct Bench<'a> {
    pub text: Text,
    pub commands: &'a [u32],
    pub order: Option<&'a [u32]>,
    pub numbers: &'a Numbers,
    pub tables: &'a Tables,
}

// Of a machine that passes questions 1 and 2: question 7 or 8 refuses where a generator reads or writes data.
fn data_refusal(text: Text, m: &[u32]) -> Result<(), Refusal>
    requires { asked (question1 m.now ∷ question2 text m.now ∷ []) ≡ 0 }
    ensures { refused result ≡ asked (question7 text m.now [] ∷ question8 text m.now [] ∷ []) }
{
    let needed = pass_order::in_modes(text, m);
    if 0 < needed.reads {
        return Err(Refusal::ReadItems);
    }
    if 0 < needed.writes {
        return Err(Refusal::WrittenPlaces);
    }
    Ok(())
}

impl<'a> Bench<'a> {
    // The entries that a pass goes by, with more after them.
    fn entries(self) -> &'a [u32]
        ensures { result.now ≡ entries_in (option_copied self.entry.order) }
    {
        match self.order {
            Some(order) => order,
            None => &self.numbers.entries,
        }
    }

    // Of a machine that passes questions 1 and 2: question 5 or 6 of an order that is given. The order by number passes both.
    fn order_refusal(self, m: &[u32]) -> Result<(), Refusal>
        requires { asked (question1 m.now ∷ question2 self.text m.now ∷ []) ≡ 0 }
        ensures { refused result ≡ order_asked (ordering_in self.entry) m.now }
    {
        match self.order {
            Some(order) => pass_order::order_refusal(order, layout::ticks(m)),
            None => Ok(()),
        }
    }

    // The first of questions 5, 6, 7, 8, 11 and 12 that is answered no, of a machine that passes questions 1 and 2.
    pub fn refusal_again(self, m: &[u32]) -> Result<(), Refusal>
        requires { asked (question1 m.now ∷ question2 self.text m.now ∷ []) ≡ 0 }
        ensures { refused result ≡ refused_again self.entry.text (ordering_in self.entry) m.now }
    {
        self.order_refusal(m)?;
        data_refusal(self.text, m)?;
        pass::unit_refusal(self.text, m)
    }

    // The question that refuses a pass.
    pub fn refusal(self, m: &[u32], memory: &[u32]) -> Result<(), Refusal>
        ensures { refused result ≡ (passed self.entry.text (ordering_in self.entry) m.now memory.now).number }
    {
        machine::refusal(self.text, m)?;
        self.order_refusal(m)?;
        data_refusal(self.text, m)?;
        if !delay_questions::memory_good(memory) {
            return Err(Refusal::DelayMemory);
        }
        pass::unit_refusal(self.text, m)
    }

    // A pass that no question refuses, by the first T entries of its order.
    pub fn run(self, m: &mut [u32], memory: &mut [u32])
        requires { (passed self.text (ordering_in self) m.old memory.old).number ≡ 0 }
        ensures m_after { m.new ≡ (passed self.entry.text (ordering_in self.entry) m.old memory.old).machine }
        ensures memory_after { memory.new ≡ (passed self.entry.text (ordering_in self.entry) m.old memory.old).memory }
    {
        let t = layout::ticks(m);
        let order = self.entries();
        pass::run(self.text, self.tables, m, &order[..t], &[], &mut [], memory);
    }
}
