// Whether every order of a machine's generators leaves the same.
#![tactic(auto)]

ghost use Rattle.std.specs.Prelude.{◌≡◌, false};
ghost use Rattle.base_questions.specs.Refusals.{refused, answer_or};
ghost use Rattle.compare_agreement.specs.Agreement.{settings_of};
ghost use Rattle.any_order_model.specs.OrderFree.{counts_in, order_free};
ghost use Rattle.any_order_counts.specs.AsCoded.{Countable};
ghost use Rattle.any_order.specs.AnyOrder.{any_order_of};
ghost use Rattle.layout_texts.specs.declared.Text.TheVariants.{Of1978};

use base_questions::Refusal;
use layout_texts::Text;

// Whether the rule holds.
fn holds(m: &[u32]) -> bool
    requires { Countable m.now }
    ensures { result ≡ order_free (counts_in (settings_of Of1978 m.now)) }
{
    let mut kept = [0u32; any_order_sums::KEPT];
    any_order_counts::count(m, &mut kept);
    any_order_rule::order_free(&kept)
}

// Whether every order of a machine's generators leaves the same. A refused call says no.
pub fn any_order(m: &[u32]) -> Result<bool, Refusal>
    ensures { record { number = refused result; alike = answer_or false result } ≡ any_order_of m.now }
{
    machine::refusal(Text::Of1978, m)?;
    Ok(holds(m))
}
