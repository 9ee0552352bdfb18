// The registers of a modifier in the machine: loaded, and written back.
#![tactic(auto)]

ghost use Rattle.std.specs.Prelude.{◌≡◌, ◌<◌};
ghost use Rattle.layout.specs.Layout.{modifier_at};
ghost use Rattle.layout.specs.Machine.{Reaches};
ghost use Rattle.modifier.specs.Modifier.{stored};
ghost use Rattle.pass_model.specs.Modifiers.{modifier_of};

use modifier::Modifier;

// Where the words of modifier k start.
fn place(k: usize) -> usize
    requires { k < 128 }
    ensures { result ≡ modifier_at k }
{
    layout::MODIFIERS_AT + layout::MODIFIER_WORDS * k
}

// Modifier k of the machine.
pub fn modifier_at(m: &[u32], k: usize) -> Modifier
    requires reaches { Reaches m.now }
    requires k_bound { k < 128 }
    ensures { result ≡ modifier_of m.now k }
{
    let at = place(k);
    Modifier::load(&m[at..])
}

// The registers of modifier k that a turn can change are written back.
pub fn put_modifier_at(m: &mut [u32], k: usize, unit: Modifier)
    requires reaches { Reaches m.old }
    requires k_bound { k < 128 }
    ensures { m.new ≡ stored m.old (modifier_at k) unit }
{
    let at = place(k);
    unit.store(&mut m[at..]);
}
