// Restricting a sealed register's grammar by one automaton.
ghost use Rattle.std.specs.Prelude.{◌≡◌, false, is_ok};
ghost use Rattle.register.specs.Held.{held, held_sealed, lent};
ghost use Rattle.narrowing.specs.Reduced.{ReducedOne};
ghost use Rattle.narrowing.specs.Restricts.{Restricts, RestrictsWorth};
ghost use Rattle.narrowing.specs.Promise.{Promise};

use crate::narrow::narrow;
use crate::narrowed::Narrowed;
use automata::automaton::Automaton;
use automata::measure::Measure;
use fields::fault::{Fault, Stop};
use product::product::Product;
use register::open::Open;
use register::sealed::Sealed;
use std::alloc::Global;

// Multiplies the current book by a restriction, trims and merges the product, looks whether its root accepts anything,
// and settles it into the target. Whatever is promised of worth in the measure holds of it.
pub fn restrict_by<R: Automaton + Drop, M: Measure>(
    heap: Global,
    current: &Sealed<'_>,
    rule: R,
    target: &mut Open<'_>,
) -> Result<Narrowed, Stop>
    ensures answers { Restricts (held_sealed current.now) (R.Automaton.meaning rule) (held target.old) result (held target.new) }
    ensures worths { RestrictsWorth M.Measure.ops (held_sealed current.now) (R.Automaton.meaning rule) result (held target.new) }
    ensures same { is_ok result ≡ false → lent target.new ≡ lent target.old }
    ensures one { ReducedOne }
    ensures promise { Promise M.Measure.ops }
{
    let book = current.book();
    let product = Product::checked(book, rule).map_err(Fault::of_no_line)?;
    narrow(heap, product, target)
}
