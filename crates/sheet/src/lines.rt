// Reading a line, and a whole sheet.
ghost use Rattle.std.specs.Prelude.{◌≡◌, ◌<◌, ◌≤◌, length, Ok, Err};
ghost use Rattle.ledger.specs.Ledger.{blank_ledger};
ghost use Rattle.register.specs.Held.{held};
ghost use Rattle.fields.specs.Fault.{Steps};
ghost use Rattle.fields.specs.Parts.{AllParted};
ghost use Rattle.fields.specs.Words.{NumbersLaw};
ghost use Rattle.fields.specs.Names.{PlacesExact};
ghost use Rattle.fields.specs.Tokens.{word, spelled};
ghost use Rattle.sheet.specs.Entered.{nothing_entered};
ghost use Rattle.sheet.specs.Lines.{letter, line_entered, ReadsSheet, FirstFault, EnteredInOrder};
ghost use Rattle.sheet.specs.Held.{entered_by};

use crate::notes::Notes;
use fields::cuts::cut_line;
use fields::fault::{Fault, Stop};
use fields::lexer::{Lexer, Token};
use fields::words::is_plain;
use refusals::refusal::SheetRefusal;
use register::open::Open;
use std::alloc::Global;

// The record kind as a character, where the field is one byte.
fn kind(token: Token) -> Option<char>
    ensures { result ≡ letter (spelled (word token.entry)) }
{
    match token.text() {
        [letter] => Some(char::from(*letter)),
        _ => None,
    }
}

impl Notes {
    // Notes of nothing.
    pub fn new(heap: Global) -> Notes
        ensures { (o : Open) → held o ≡ blank_ledger → entered_by result o ≡ nothing_entered }
    {
        Notes {
            forms: Vec::new(heap),
            states: Vec::new(heap),
            levels: Vec::new(heap),
            bars: Vec::new(heap),
            tickets: Vec::new(heap),
        }
    }

    // Reads one line, which has the given number, into the register and these notes. A refused line enters nothing.
    pub fn line(
        &mut self,
        heap: Global,
        register: &mut Open<'_>,
        line: u32,
        bytes: &[u8],
    ) -> Result<(), Stop>
        ensures { Steps (line_entered line (entered_by self.old register.old) bytes.now) (entered_by self.old register.old) result (entered_by self.new register.new) }
    {
        if bytes.len() > 32768 {
            return Err(Fault::new(SheetRefusal::Long.into(), 0).into());
        }
        let mut lexer = Lexer::new(bytes, line);
        if !is_plain(bytes) {
            return Err(lexer.fault(SheetRefusal::Byte, 1).into());
        }
        match kind(lexer.next()) {
            Some('F') => self.form_line(heap, register, lexer),
            Some('S') => self.state_line(heap, register, lexer),
            Some('R') => self.row_line(heap, register, lexer),
            Some('G') => self.root_line(register, lexer),
            Some('L') => self.level_line(register, lexer),
            Some('B') => self.bar_line(register, lexer),
            Some('T') => self.ticket_line(heap, register, lexer),
            _ => Err(lexer.fault(SheetRefusal::Kind, 1).into()),
        }
    }

    // Reads all lines of a sheet into the register and these notes.
    pub fn read(&mut self, heap: Global, register: &mut Open<'_>, sheet: &[u8]) -> Result<(), Stop>
        ensures reads { ReadsSheet (entered_by self.old register.old) sheet.now result (entered_by self.new register.new) }
        ensures first_fault { FirstFault }
        ensures in_order { EnteredInOrder }
        ensures parted { AllParted }
        ensures numbers { NumbersLaw }
        ensures places { PlacesExact }
    {
        self.read_lines(heap, register, sheet)
    }

    fn read_lines(
        &mut self,
        heap: Global,
        register: &mut Open<'_>,
        sheet: &[u8],
    ) -> Result<(), Stop>
        ensures { ReadsSheet (entered_by self.old register.old) sheet.now result (entered_by self.new register.new) }
    {
        if sheet.len() > 32768 {
            return Err(Fault::new(SheetRefusal::Long.into(), 0).into());
        }
        let mut rest = sheet;
        // cut and numbered one at a time: the library's split would give one more line behind the last end
        let mut line: u32 = 0;
        while let Some((bytes, after)) = cut_line(rest) {
            line += 1;
            self.line(heap, register, line, bytes)?;
            rest = after;
        }
        Ok(())
    }
}
