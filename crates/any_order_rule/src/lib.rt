// Whether any order of the generators leaves the same, by what is kept: five comparisons.
#![tactic(auto)]

ghost use Rattle.std.specs.Prelude.{◌≡◌};
ghost use Rattle.any_order_rule.specs.AsCoded.{order_free_by, answered};

use any_order_sums::Kept;

// The rule.
pub fn order_free(kept: &Kept) -> bool
    ensures { result ≡ order_free_by kept.now }
{
    (kept[any_order_sums::AWAITING_AT] == 0)
        & (kept[any_order_sums::PARTED_AT] == 0)
        & (kept[any_order_sums::WRITTEN_AT] <= 1)
        & (kept[any_order_sums::ALL_READERS_AT] <= 1)
        & (kept[any_order_sums::SHARED_AT] == 0)
}

// The rule's answer at its place.
pub fn answer(kept: &mut Kept)
    ensures { kept.new ≡ answered kept.old }
{
    kept[any_order_sums::ORDER_FREE_AT] = order_free(kept) as u32;
}
