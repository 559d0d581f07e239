// Making a bar, and asking it.
ghost use Rattle.std.specs.Prelude.{◌≡◌, true, is_ok, IfOk, MatchResult, Ok, Err};
ghost use Rattle.tickets.specs.Checked.{arities_of};
ghost use Rattle.rules.specs.Bar.{bar, bar_to, bar_checked, BarExact};
ghost use Rattle.rules.specs.Made.{bar_of};
ghost use Rattle.rules.specs.Soundness.{bar_sound};

use crate::bar::{Bar, Nesting};
use automata::automaton::Automaton;
use automata::row::Row;
use refusals::refusal::PileRefusal;
use std::array;
use tickets::forms::Forms;

impl<'f> Bar<'f> {
    // Whether a bar can be made of these forms and this position, or why not.
    pub fn check(forms: &Forms<'_>, nesting: Nesting) -> Result<(), PileRefusal>
        ensures { result ≡ bar_checked (arities_of forms.now) nesting.outer nesting.position nesting.inner }
    {
        if nesting.inner as usize >= forms.count() {
            return Err(PileRefusal::BarForm);
        }
        let arity = forms
            .arity(nesting.outer as usize)
            .ok_or(PileRefusal::BarForm)?;
        if nesting.position >= arity as usize {
            return Err(PileRefusal::BarPosition);
        }
        Ok(())
    }

    // The bar of what passes the check. It accepts the tickets in which no outer node has the inner form directly at
    // the position.
    pub fn new(forms: Forms<'f>, nesting: Nesting) -> Bar<'f>
        requires { is_ok (bar_checked (arities_of forms) nesting.outer nesting.position nesting.inner) ≡ true }
        ensures meaning { bar_of result ≡ bar (arities_of forms.entry) nesting.outer nesting.position nesting.inner }
        ensures accepts { BarExact (arities_of forms.entry) nesting.outer nesting.position nesting.inner (bar_of result) }
    {
        Bar { forms, nesting }
    }

    // The bar, or why there is none.
    pub fn checked(forms: Forms<'f>, nesting: Nesting) -> Result<Bar<'f>, PileRefusal>
        ensures answers { MatchResult result (λ _. bar_checked (arities_of forms.entry) nesting.outer nesting.position nesting.inner ≡ Ok tt) (λ e. bar_checked (arities_of forms.entry) nesting.outer nesting.position nesting.inner ≡ Err e) }
        ensures meaning { IfOk result (λ b. bar_of b ≡ bar (arities_of forms.entry) nesting.outer nesting.position nesting.inner) }
    {
        Bar::check(&forms, nesting)?;
        Ok(Bar::new(forms, nesting))
    }

    // The state that a form sends its child at a position to.
    fn aim(&self, form: usize, position: usize) -> u16
        ensures { result ≡ bar_to self.now.nesting.outer self.now.nesting.position form position }
    {
        if form == self.nesting.outer as usize && position == self.nesting.position {
            1
        } else {
            0
        }
    }
}

impl<'f> Automaton for Bar<'f> {
    ghost meaning = { bar_of };

    ghost sound = { bar_sound };

    fn states(&self) -> usize {
        2
    }

    fn places(&self) -> usize {
        self.forms.count().max(1)
    }

    fn root(&self) -> usize {
        0
    }

    fn row(&self, state: usize, place: usize) -> Option<Row> {
        if state >= 2 || place >= self.forms.count() {
            return None;
        }
        if state == 1 && place == self.nesting.inner as usize {
            return None;
        }
        let arity = self.forms.arity(place)?;
        Some(Row {
            form: place as u16,
            points: 0,
            arity,
            children: array::from_fn(|position| self.aim(place, position)),
        })
    }
}
