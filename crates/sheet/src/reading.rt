// What each kind of line enters. A refused line enters nothing.
ghost use Rattle.std.specs.Prelude.{◌≡◌};
ghost use Rattle.fields.specs.Fault.{Steps};
ghost use Rattle.fields.specs.Tokens.{to_read, line_of};
ghost use Rattle.sheet.specs.Lines.{form_line, state_line, row_line, root_line, level_line, bar_line, ticket_line};
ghost use Rattle.sheet.specs.Held.{entered_by};

use crate::notes::Notes;
use entries::entering::{check_bar, check_ticket, enter_form, enter_root, enter_row, enter_state};
use fields::fault::Stop;
use fields::lexer::Lexer;
use refusals::refusal::SheetRefusal;
use register::open::Open;
use rules::bar::Nesting;
use std::alloc::Global;

impl Notes {
    // F: name, arity.
    pub(crate) fn form_line(
        &mut self,
        heap: Global,
        register: &mut Open<'_>,
        mut lexer: Lexer,
    ) -> Result<(), Stop>
        ensures { Steps (form_line (line_of lexer.entry) (entered_by self.old register.old) (to_read lexer.entry)) (entered_by self.old register.old) result (entered_by self.new register.new) }
    {
        lexer.expect(2, 2)?;
        let name = lexer.fresh(&self.forms, 2)?;
        let arity = lexer.number(3)?;
        let owned = name.to_vec(heap)?;
        if self.forms.len() >= 65535 {
            return Err(Stop::Memory);
        }
        self.forms.try_reserve(1)?;
        self.levels.try_reserve(1)?;
        enter_form(register, lexer.line(), arity)?;
        self.forms.push_reserved(owned);
        self.levels.push_reserved(0);
        Ok(())
    }

    // S: name.
    pub(crate) fn state_line(
        &mut self,
        heap: Global,
        register: &mut Open<'_>,
        mut lexer: Lexer,
    ) -> Result<(), Stop>
        ensures { Steps (state_line (line_of lexer.entry) (entered_by self.old register.old) (to_read lexer.entry)) (entered_by self.old register.old) result (entered_by self.new register.new) }
    {
        lexer.expect(1, 1)?;
        let name = lexer.fresh(&self.states, 2)?;
        let owned = name.to_vec(heap)?;
        if self.states.len() >= 65535 {
            return Err(Stop::Memory);
        }
        self.states.try_reserve(1)?;
        enter_state(register, lexer.line())?;
        self.states.push_reserved(owned);
        Ok(())
    }

    // R: state, form, points, 0 to 4 children.
    pub(crate) fn row_line(
        &mut self,
        heap: Global,
        register: &mut Open<'_>,
        mut lexer: Lexer,
    ) -> Result<(), Stop>
        ensures { Steps (row_line (line_of lexer.entry) (entered_by self.old register.old) (to_read lexer.entry)) (entered_by self.old register.old) result (entered_by self.new register.new) }
    {
        lexer.expect(3, 7)?;
        let state = lexer.given(&self.states, 2)?;
        let form = lexer.given(&self.forms, 3)?;
        let points = lexer.number(4)?;
        let children = lexer.places(heap, &self.states, 5)?;
        enter_row(
            register,
            lexer.line(),
            state,
            form as u16,
            points,
            &children,
        )?;
        Ok(())
    }

    // G: root state.
    pub(crate) fn root_line(
        &mut self,
        register: &mut Open<'_>,
        mut lexer: Lexer,
    ) -> Result<(), Stop>
        ensures { Steps (root_line (line_of lexer.entry) (entered_by self.old register.old) (to_read lexer.entry)) (entered_by self.old register.old) result (entered_by self.new register.new) }
    {
        lexer.expect(1, 1)?;
        let state = lexer.given(&self.states, 2)?;
        enter_root(register, lexer.line(), state)?;
        Ok(())
    }

    // L: form, level.
    pub(crate) fn level_line(
        &mut self,
        register: &mut Open<'_>,
        mut lexer: Lexer,
    ) -> Result<(), Stop>
        ensures { Steps (level_line (line_of lexer.entry) (entered_by self.old register.old) (to_read lexer.entry)) (entered_by self.old register.old) result (entered_by self.new register.new) }
    {
        lexer.expect(2, 2)?;
        let form = lexer.given(&self.forms, 2)?;
        let level = lexer.number(3)?;
        self.levels[form] = level;
        Ok(())
    }

    // B: outer, position, inner; at most eight.
    pub(crate) fn bar_line(&mut self, register: &mut Open<'_>, mut lexer: Lexer) -> Result<(), Stop>
        ensures { Steps (bar_line (line_of lexer.entry) (entered_by self.old register.old) (to_read lexer.entry)) (entered_by self.old register.old) result (entered_by self.new register.new) }
    {
        lexer.expect(3, 3)?;
        let outer = lexer.given(&self.forms, 2)?;
        let position = lexer.number(3)?;
        let inner = lexer.given(&self.forms, 4)?;
        if self.bars.len() >= 8 {
            return Err(lexer.fault(SheetRefusal::Many, 1).into());
        }
        let bar = Nesting {
            outer: outer as u16,
            position: position as usize,
            inner: inner as u16,
        };
        check_bar(register, lexer.line(), bar)?;
        self.bars.push(bar)?;
        Ok(())
    }

    // T: any number of forms; at most 64 tickets.
    pub(crate) fn ticket_line(
        &mut self,
        heap: Global,
        register: &mut Open<'_>,
        mut lexer: Lexer,
    ) -> Result<(), Stop>
        ensures { Steps (ticket_line (line_of lexer.entry) (entered_by self.old register.old) (to_read lexer.entry)) (entered_by self.old register.old) result (entered_by self.new register.new) }
    {
        let nodes = lexer.places(heap, &self.forms, 2)?;
        if self.tickets.len() >= 64 {
            return Err(lexer.fault(SheetRefusal::Many, 1).into());
        }
        check_ticket(register, lexer.line(), &nodes)?;
        self.tickets.push(nodes)?;
        Ok(())
    }
}
