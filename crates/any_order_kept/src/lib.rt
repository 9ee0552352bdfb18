// Whether every order of a machine's generators leaves the same, kept beside the machine and brought up to date as one partial after the other changes.
#![tactic(auto)]

ghost use Rattle.std.specs.Prelude.{◌≡◌, true, length};
ghost use Rattle.layout.specs.Layout.{machine_length};
ghost use Rattle.layout_texts.specs.declared.Text.TheVariants.{Of1978};
ghost use Rattle.machine.specs.Questions.{valid};
ghost use Rattle.machine_change.specs.Change.{changed_by, concerned, change_refusal};
ghost use Rattle.base_questions.specs.Refusals.{refused};
ghost use Rattle.machine_change.specs.Kinds.{change_of_kind};
ghost use Rattle.machine_change.specs.AsCoded.{let_through};
ghost use Rattle.any_order_kept.specs.Keeping.{keep_of, kept_after, change_of};

use any_order_sums::Kept;
use base_questions::Refusal;
use layout_texts::Text;
use machine_change::PartialChange;

// What is kept is made from a machine. A refused call leaves it as it was.
pub fn keep(m: &[u32], kept: &mut Kept) -> Result<(), Refusal>
    ensures { record { number = refused result; kept = kept.new } ≡ keep_of m.now kept.old }
{
    machine::refusal(Text::Of1978, m)?;
    let mut made = [0u32; any_order_sums::KEPT];
    any_order_counts::count(m, &mut made);
    any_order_rule::answer(&mut made);
    *kept = made;
    Ok(())
}

// The first question of a change that is answered no, if one is.
fn refusal(m: &[u32], change: PartialChange) -> Result<(), Refusal>
    ensures { refused result ≡ change_refusal m.now (change_of_kind change) }
{
    machine::refusal(Text::Of1978, m)?;
    if !machine_change::let_through(m, change) {
        return Err(Refusal::MachineWords);
    }
    Ok(())
}

// A change that is let through is made, and what is kept is brought up to date.
fn update(m: &mut [u32], kept: &mut Kept, change: PartialChange)
    requires m_len { (length m.old ≡ machine_length) × (valid Of1978 m.old ≡ true) }
    requires value_value { let_through m.old (change_of_kind change) ≡ true }
    ensures m_after { m.new ≡ changed_by m.old (change_of_kind change) }
    ensures kept_after { kept.new ≡ kept_after m.old m.new (concerned m.old (change_of_kind change)) kept.old }
{
    let g = machine_change::concerned(m, change);
    any_order_counts::shift_counted(m, kept, g, false);
    machine_change::make(m, change);
    any_order_counts::shift_counted(m, kept, g, true);
    any_order_rule::answer(kept);
}

// A change of one partial. A refused call leaves the machine and what is kept as they were.
pub fn change(m: &mut [u32], kept: &mut Kept, change: PartialChange) -> Result<(), Refusal>
    ensures { record { number = refused result; machine = m.new; kept = kept.new } ≡ change_of m.old kept.old (change_of_kind change) }
{
    refusal(m, change)?;
    update(m, kept, change);
    Ok(())
}

// The change that three numbers ask for: where there is none, question 2 refuses it, after those of the machine.
pub fn change_by_numbers(
    m: &mut [u32],
    kept: &mut Kept,
    kind: u32,
    generator: u32,
    value: u32,
) -> Result<(), Refusal>
    ensures { record { number = refused result; machine = m.new; kept = kept.new } ≡ change_of m.old kept.old (record { kind = kind; generator = generator; value = value }) }
{
    match machine_change::of_numbers(kind, generator, value) {
        Some(asked) => change(m, kept, asked),
        None => {
            machine::refusal(Text::Of1978, m)?;
            Err(Refusal::MachineWords)
        }
    }
}
