// Writing a pile into an open register.
ghost use Rattle.std.specs.Prelude.{◌≡◌, false, is_ok};
ghost use Rattle.ledger.specs.Ledger.{settle as settle_call, settle_answer, step, Follows};
ghost use Rattle.register.specs.Held.{held, lent};

use crate::reached::Reached;
use automata::automaton::Automaton;
use refusals::refusal::SettleRefusal;
use register::open::Open;

// Enters the states that rows reach from the pile's root, by new numbers in ascending order, then their rows in the
// order of places, then the root. A refusal leaves the register and the lent rows as they were.
pub fn settle<A: Automaton>(pile: &A, target: &mut Open<'_>) -> Result<(), SettleRefusal>
    ensures answers { result ≡ settle_answer (held target.old) (A.Automaton.meaning pile.now) }
    ensures steps { held target.new ≡ step (held target.old) (settle_call (A.Automaton.meaning pile.now)) }
    ensures history { Follows (held target.old) (settle_call (A.Automaton.meaning pile.now)) (held target.new) }
    ensures same { is_ok result ≡ false → lent target.new ≡ lent target.old }
{
    let reached = Reached::of(pile);
    reached.judged(target)?;
    reached.enter_states(target);
    reached.enter_rows(target);
    let root = reached.number(pile.root());
    let _ = target.root(root);
    Ok(())
}
