// Faults: a refusal with its line and field; and why reading stops.
ghost use Rattle.std.specs.Prelude.{◌≡◌, Some};
ghost use Rattle.fields.specs.declared.fault.Stop.TheVariants.{Refused as IsRefused, Memory};
ghost use Rattle.fields.specs.Sentence.{fault_words};
ghost use Rattle.fields.specs.Fault.{of_refusal};

use refusals::refusal::Refusal;
use std::alloc::{AllocError, AllocFailed as NoRoom};
use std::fmt;

// 0 is no line and no field: the project defines a fault so, and its line of text writes these numbers as they stand.
#[derive(Clone, Copy, Debug, PartialEq)]
pub struct Fault {
    pub refusal: Refusal,
    // from 1, and 0 where the refusal is of no line
    pub line: u32,
    // from 1, and 0 where the refusal is of no field
    pub field: u32,
}

impl Fault {
    // A refusal at a line, of no field of it.
    pub fn new(refusal: Refusal, line: u32) -> Fault
        ensures { result ≡ of_refusal refusal line }
    {
        Fault {
            refusal,
            line,
            field: 0,
        }
    }

    // A refusal of any layer that is of no line.
    pub fn of_no_line<E: Into<Refusal>>(refusal: E) -> Fault
        ensures { E.converts refusal result.refusal × (result ≡ of_refusal result.refusal 0) }
    {
        Fault::new(refusal.into(), 0)
    }
}

// Where the fault is, if it is of a line or a field, and what was wrong, in words for a person.
impl fmt::Display for Fault {
    ghost output = { λ f. Some (fault_words f) };

    fn fmt<W: fmt::Write>(&self, f: &mut fmt::Formatter<W>) -> fmt::Result {
        let why = self.refusal;
        match (self.line, self.field) {
            (0, _) => write!(f, "refused: {why}"),
            (line, 0) => write!(f, "refused at line {line}: {why}"),
            (line, field) => write!(f, "refused at line {line}, field {field}: {why}"),
        }
    }
}

// Why reading stops: a fault, or want of memory.
#[derive(Clone, Copy, Debug, PartialEq)]
pub enum Stop {
    Refused(Fault),
    Memory,
}

impl From<Fault> for Stop {
    ghost from_gives = { λ f r. r ≡ IsRefused f };

    fn from(fault: Fault) -> Stop {
        Stop::Refused(fault)
    }
}

impl From<AllocError> for Stop {
    ghost from_gives = { λ _ r. r ≡ Memory };

    fn from(_e: AllocError) -> Stop {
        Stop::Memory
    }
}

impl<T: Drop> From<NoRoom<T>> for Stop {
    ghost from_gives = { λ _ r. r ≡ Memory };

    fn from(_e: NoRoom<T>) -> Stop {
        Stop::Memory
    }
}
