// The lexer: the fields of a line, one at a call, as names and numbers that borrow its bytes.
ghost use Rattle.std.specs.Prelude.{◌≡◌, true, length, ◌==◌};
ghost use Rattle.fields.specs.Parts.{fields};
ghost use Rattle.fields.specs.Tokens.{word, first, others, to_read, line_of, spelled, numbered, head};
ghost use Rattle.fields.specs.Names.{name_at, number_at, count_at};
ghost use Rattle.fields.specs.Fault.{pointed, of_field};
ghost use Rattle.fields.specs.Words.{number_of};

use crate::cuts::{count_fields, cut};
use crate::fault::Fault;
use crate::words::{is_name, number};
use refusals::refusal::SheetRefusal;

// A field of a line, or its end.
#[derive(Clone, Copy)]
pub enum Token<'a> {
    Name(&'a [u8]),
    Number(&'a [u8], u16),
    End,
}

impl<'a> Token<'a> {
    // The bytes of the field; none at the end of the line.
    pub fn text(self) -> &'a [u8]
        ensures { result.now ≡ spelled (word self.entry) }
    {
        match self {
            Token::Name(text) | Token::Number(text, _) => text,
            Token::End => &[],
        }
    }

    // Its number, where the field is one.
    pub fn number(self) -> Option<u16>
        ensures { result ≡ numbered (word self.entry) }
    {
        match self {
            Token::Number(_, n) => Some(n),
            _ => None,
        }
    }
}

// A line's number and what is left of its fields: nothing once the last is read. That a read leaves the line's number is a
// clause of each, since a fact of the type speaks of one moment.
#[derive(Clone, Copy)]
pub struct Lexer<'a> {
    line: u32,
    rest: Option<&'a [u8]>,
}

impl<'a> Lexer<'a> {
    // All fields of a line.
    pub fn new(bytes: &'a [u8], line: u32) -> Lexer<'a>
        ensures fields { to_read result ≡ fields bytes.now }
        ensures line { line_of result ≡ line }
    {
        Lexer {
            line,
            rest: Some(bytes),
        }
    }

    // The line's number.
    pub fn line(&self) -> u32
        ensures { result ≡ line_of self.now }
    {
        self.line
    }

    // A refusal at a field of the line.
    pub fn fault(&self, refusal: SheetRefusal, field: u32) -> Fault
        ensures { result ≡ of_field refusal (line_of self.now) field }
    {
        Fault {
            field,
            ..Fault::new(refusal.into(), self.line)
        }
    }

    // How many fields are left.
    pub fn left(&self) -> usize
        ensures { result ≡ length (to_read self.now) }
    {
        self.rest.map_or(0, count_fields)
    }

    // Refuses the line, at its kind, unless `least` to `most` fields are left.
    pub fn expect(&self, least: usize, most: usize) -> Result<(), Fault>
        ensures { result ≡ count_at (line_of self.now) least most (to_read self.now) }
    {
        let count = self.left();
        if count < least || most < count {
            return Err(self.fault(SheetRefusal::Fields, 1));
        }
        Ok(())
    }

    // Whether no field is left.
    pub fn is_done(&self) -> bool
        ensures { result ≡ (length (to_read self.now) == 0) }
    {
        self.rest.is_none()
    }

    // The next field.
    pub fn next(&mut self) -> Token<'a>
        ensures value { word result ≡ first (to_read self.old) }
        ensures after { to_read self.new ≡ others (to_read self.old) }
        ensures line { line_of self.new ≡ line_of self.old }
    {
        let Some(bytes) = self.rest else {
            return Token::End;
        };
        let (field, rest) = cut(bytes, b'\t');
        self.rest = rest;
        match number(field) {
            Some(n) => Token::Number(field, n),
            None => Token::Name(field),
        }
    }

    // The next field, which has the given number, as a name.
    pub fn name(&mut self, field: u32) -> Result<&'a [u8], Fault>
        ensures value { pointed result ≡ name_at (line_of self.old) field (head (to_read self.old)) }
        ensures after { to_read self.new ≡ others (to_read self.old) }
        ensures line { line_of self.new ≡ line_of self.old }
    {
        let text = self.next().text();
        if !is_name(text) {
            return Err(self.fault(SheetRefusal::Name, field));
        }
        Ok(text)
    }

    // The next field as a number.
    pub fn number(&mut self, field: u32) -> Result<u16, Fault>
        ensures value { result ≡ number_at (line_of self.old) field (number_of (head (to_read self.old))) }
        ensures after { to_read self.new ≡ others (to_read self.old) }
        ensures line { line_of self.new ≡ line_of self.old }
    {
        let fault = self.fault(SheetRefusal::Number, field);
        self.next().number().ok_or(fault)
    }
}
