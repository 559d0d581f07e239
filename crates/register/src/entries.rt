// The entries of an open register. Each answers as the ledger of what it holds does and takes the ledger's step; one that
// is refused leaves the register and the lent rows as they were.
ghost use Rattle.std.specs.Prelude.{◌≡◌, false, is_ok};
ghost use Rattle.ledger.specs.Ledger.{enter, add_form, add_state, add_row, strike_row, name_root, as_row, entry_answer, unnumbered, step, Follows};
ghost use Rattle.register.specs.Held.{held, lent};

use crate::open::Open;
use ledger::rows::{enter_row, take_row};
use refusals::refusal::RegisterRefusal;

impl<'a> Open<'a> {
    // Adds a form, and returns its number.
    pub fn form(&mut self, arity: u16) -> Result<u16, RegisterRefusal>
        ensures answers { result ≡ entry_answer (held self.old) (add_form arity) }
        ensures steps { held self.new ≡ step (held self.old) (enter (add_form arity)) }
        ensures history { Follows (held self.old) (enter (add_form arity)) (held self.new) }
        ensures same { lent self.new ≡ lent self.old }
    {
        if arity > 4 {
            return Err(RegisterRefusal::HighArity);
        }
        let number = self.table.forms;
        if number >= 64 {
            return Err(RegisterRefusal::FullForms);
        }
        self.table.arities[number] = arity as u8;
        self.table.forms += 1;
        Ok(number as u16)
    }

    // Adds a state without rows, and returns its number.
    pub fn state(&mut self) -> Result<usize, RegisterRefusal>
        ensures answers { result ≡ entry_answer (held self.old) add_state }
        ensures steps { held self.new ≡ step (held self.old) (enter add_state) }
        ensures history { Follows (held self.old) (enter add_state) (held self.new) }
        ensures same { lent self.new ≡ lent self.old }
    {
        let number = self.table.states;
        if number >= 64 {
            return Err(RegisterRefusal::FullStates);
        }
        self.table.counts[number] = 0;
        self.table.states += 1;
        Ok(number)
    }

    // Appends a row to the state's list, and returns its place. By a rule of the project its parts are given one by one.
    pub fn row(
        &mut self,
        state: usize,
        form: u16,
        points: u16,
        children: &[u16],
    ) -> Result<usize, RegisterRefusal>
        ensures answers { result ≡ entry_answer (held self.old) (add_row state (as_row form points children.now)) }
        ensures steps { held self.new ≡ step (held self.old) (enter (add_row state (as_row form points children.now))) }
        ensures history { Follows (held self.old) (enter (add_row state (as_row form points children.now))) (held self.new) }
        ensures same { is_ok result ≡ false → lent self.new ≡ lent self.old }
    {
        let Open { rows, table } = self;
        enter_row(rows, table, state, form, points, children)
    }

    // Removes the row at the place; the state's later rows move down by one.
    pub fn strike(&mut self, state: usize, place: usize) -> Result<(), RegisterRefusal>
        ensures answers { result ≡ unnumbered (entry_answer (held self.old) (strike_row state place)) }
        ensures steps { held self.new ≡ step (held self.old) (enter (strike_row state place)) }
        ensures history { Follows (held self.old) (enter (strike_row state place)) (held self.new) }
        ensures same { is_ok result ≡ false → lent self.new ≡ lent self.old }
    {
        let Open { rows, table } = self;
        take_row(rows, table, state, place)
    }

    // Names the root, in place of any other.
    pub fn root(&mut self, state: usize) -> Result<(), RegisterRefusal>
        ensures answers { result ≡ unnumbered (entry_answer (held self.old) (name_root state)) }
        ensures steps { held self.new ≡ step (held self.old) (enter (name_root state)) }
        ensures history { Follows (held self.old) (enter (name_root state)) (held self.new) }
        ensures same { lent self.new ≡ lent self.old }
    {
        if state >= self.table.states {
            return Err(RegisterRefusal::NoState);
        }
        self.table.root = Some(state);
        Ok(())
    }
}
