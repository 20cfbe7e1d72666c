// What it is to put one more into a list in order.
ghost use Rattle.std.specs.Prelude.{ℕ, List};
ghost use Rattle.std.specs.List.Sorted.{IsStrictlySortedBy};
ghost use Rattle.std.specs.Ordering.{nat_cmp};
ghost use Rattle.nim_plan.specs.declared.plan.SkipAt.{SkipAt};
ghost use Rattle.nim_plan.specs.Order.{HasOneMore, skip_order, with_site, with_skip};

/// A list in order with one more is in order, and has that one beside those that it had; where it
/// was there, nothing changes.
pub fn one_more()
    ensures sites { (sites : List ℕ) (site : ℕ) → IsStrictlySortedBy nat_cmp sites →
        HasOneMore nat_cmp sites (with_site sites site) site }
    ensures skips { (skips : List SkipAt) (skip : SkipAt) → IsStrictlySortedBy skip_order skips →
        HasOneMore skip_order skips (with_skip skips skip) skip }
{}
