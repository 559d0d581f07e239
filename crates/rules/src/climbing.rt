// Making a ladder, and asking it.
ghost use Rattle.std.specs.Prelude.{◌≡◌, true, is_ok, IfOk, MatchResult, Ok, Err};
ghost use Rattle.tickets.specs.Checked.{arities_of};
ghost use Rattle.rules.specs.Ladder.{ladder, ladder_checked, LadderExact};
ghost use Rattle.rules.specs.Made.{ladder_of};
ghost use Rattle.rules.specs.Soundness.{ladder_sound};

use crate::ladder::Ladder;
use automata::automaton::Automaton;
use automata::row::Row;
use refusals::refusal::PileRefusal;
use tickets::forms::Forms;

impl<'f, 'l> Ladder<'f, 'l> {
    // Whether a ladder can be made of so many levels and a level for each form, or why not.
    pub fn check(forms: &Forms<'_>, count: usize, levels: &[u16]) -> Result<(), PileRefusal>
        ensures { result ≡ ladder_checked (arities_of forms.now) count levels.now }
    {
        if count == 0 || count > 8 {
            return Err(PileRefusal::LadderCount);
        }
        if levels.len() != forms.count() {
            return Err(PileRefusal::LevelCount);
        }
        if !levels.iter().all(|level| *level as usize <= count) {
            return Err(PileRefusal::HighLevel);
        }
        Ok(())
    }

    // The ladder of what passes the check. It accepts the tickets in which no form has one of a lower level, but for
    // level 0, directly below it.
    pub fn new(forms: Forms<'f>, count: usize, levels: &'l [u16]) -> Ladder<'f, 'l>
        requires { is_ok (ladder_checked (arities_of forms) count levels.now) ≡ true }
        ensures meaning { ladder_of result ≡ ladder (arities_of forms.entry) count levels.now }
        ensures accepts { LadderExact (arities_of forms.entry) levels.now (ladder_of result) }
    {
        Ladder {
            forms,
            count,
            levels,
        }
    }

    // The ladder, or why there is none.
    pub fn checked(
        forms: Forms<'f>,
        count: usize,
        levels: &'l [u16],
    ) -> Result<Ladder<'f, 'l>, PileRefusal>
        ensures answers { MatchResult result (λ _. ladder_checked (arities_of forms.entry) count levels.now ≡ Ok tt) (λ e. ladder_checked (arities_of forms.entry) count levels.now ≡ Err e) }
        ensures meaning { IfOk result (λ l. ladder_of l ≡ ladder (arities_of forms.entry) count levels.now) }
    {
        Ladder::check(&forms, count, levels)?;
        Ok(Ladder::new(forms, count, levels))
    }
}

impl<'f, 'l> Automaton for Ladder<'f, 'l> {
    ghost meaning = { ladder_of };

    ghost sound = { ladder_sound };

    fn states(&self) -> usize {
        self.count
    }

    fn places(&self) -> usize {
        self.forms.count().max(1)
    }

    fn root(&self) -> usize {
        0
    }

    fn row(&self, state: usize, place: usize) -> Option<Row> {
        if state >= self.count || place >= self.forms.count() {
            return None;
        }
        let level = self.levels[place];
        if level > 0 && level as usize <= state {
            return None;
        }
        let arity = self.forms.arity(place)?;
        let child = level.saturating_sub(1);
        Some(Row {
            form: place as u16,
            points: 0,
            arity,
            children: [child; 4],
        })
    }
}
