// Laws of the ledger that hold of no single call.
ghost use Rattle.ledger.specs.Reach.{ReachedExact};
ghost use Rattle.history.specs.Settle.{SettleEnters, SettleAsCalls, SettlePreserves};

use automata::measure::Measure;

// What a settle that is not refused leaves: the states that settle numbers are those that rows reach, none of its entries
// is refused, it is the same as these entries by calls of their own, and after a seal the worth from the root is that of
// the automaton that it writes.
pub fn settle_preserves<M: Measure>() -> bool
    ensures reached { ReachedExact }
    ensures enters { SettleEnters }
    ensures calls { SettleAsCalls }
    ensures preserves { SettlePreserves M.Measure.ops }
{
    true
}
