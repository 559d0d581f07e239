// Making a register, sealing and reopening it.
ghost use Rattle.std.specs.Prelude.{◌≡◌, true, false, [], length, is_ok};
ghost use Rattle.ledger.specs.Ledger.{ledger, lent_answer, seal_answer, seal as sealing_call, reopen as reopening_call, step, Follows};
ghost use Rattle.register.specs.Held.{held, held_sealed, lent, lent_sealed};

use crate::open::Open;
use crate::sealed::Sealed;
use automata::row::Row;
use ledger::table::Table;
use refusals::refusal::RegisterRefusal;

// By a rule of the project blank and seal are each a check that moves nothing and may refuse, and a making that cannot.
impl<'a> Open<'a> {
    // Whether a list of rows is long enough to lend.
    pub fn check(rows: &[Row]) -> Result<(), RegisterRefusal>
        ensures answers { result ≡ lent_answer (length rows.now) }
    {
        if rows.len() < 2048 {
            return Err(RegisterRefusal::ShortList);
        }
        Ok(())
    }

    // A blank register over rows that pass the check. They are left as they are.
    pub fn blank(rows: &'a mut [Row]) -> Open<'a>
        requires { is_ok (lent_answer (length rows.old)) ≡ true }
        ensures value { held result ≡ ledger [] }
        ensures same { lent result ≡ rows.old }
    {
        Open {
            rows,
            table: Table::default(),
        }
    }

    // Whether the register can be sealed. A refusal here is a seal refused, which the history has and which changes nothing.
    pub fn can_seal(&self) -> Result<(), RegisterRefusal>
        ensures answers { result ≡ seal_answer (held self.now) }
        ensures history { is_ok result ≡ false → Follows (held self.now) sealing_call (held self.now) }
    {
        self.table.root.map(|_| ()).ok_or(RegisterRefusal::NoRoot)
    }

    // Seals a register that passes the check.
    pub fn seal(self) -> Sealed<'a>
        requires { is_ok (seal_answer (held self)) ≡ true }
        ensures steps { held_sealed result ≡ step (held self.entry) sealing_call }
        ensures history { Follows (held self.entry) sealing_call (held_sealed result) }
        ensures same { lent_sealed result ≡ lent self.entry }
    {
        let Open { rows, table } = self;
        Sealed { rows, table }
    }
}

impl<'a> Sealed<'a> {
    // Opens a sealed register for further entries.
    pub fn reopen(self) -> Open<'a>
        ensures steps { held result ≡ step (held_sealed self.entry) reopening_call }
        ensures history { Follows (held_sealed self.entry) reopening_call (held result) }
        ensures same { lent result ≡ lent_sealed self.entry }
    {
        let Sealed { rows, table } = self;
        Open { rows, table }
    }
}
