// Whether two orders of the generators are equal.
#![tactic(auto)]

ghost use Rattle.std.specs.Prelude.{◌≡◌, false};
ghost use Rattle.base_questions.specs.Refusals.{refused, answer_or};
ghost use Rattle.compare.specs.Compare.{compare_refusal, compare_of};

use base_questions::Refusal;
use layout_texts::Text;

// The first question of a compare that is answered no, if one is.
pub fn refusal(text: Text, m: &[u32], first: &[u32], second: &[u32]) -> Result<(), Refusal>
    ensures { refused result ≡ compare_refusal text m.now first.now second.now }
{
    machine::refusal(text, m)?;
    let t = layout::ticks(m);
    pass_order::order_refusal(first, t)?;
    pass_order::order_refusal(second, t)
}

// Whether two orders of a machine's generators are equal. A refused compare doesn't say yes.
pub fn compare(text: Text, m: &[u32], first: &[u32], second: &[u32]) -> Result<bool, Refusal>
    ensures { record { number = refused result; equal = answer_or false result } ≡ compare_of text m.now first.now second.now }
{
    refusal(text, m, first, second)?;
    Ok(compare_first::agrees(text, m, first, second))
}
