// A sheet's reader.
ghost use Rattle.std.specs.Prelude.{◌≡◌};
ghost use Rattle.fields.specs.Fault.{Steps};
ghost use Rattle.fields.specs.Parts.{AllParted};
ghost use Rattle.fields.specs.Words.{NumbersLaw};
ghost use Rattle.fields.specs.Names.{PlacesExact};
ghost use Rattle.ledger.specs.Ledger.{blank_ledger};
ghost use Rattle.register.specs.Held.{held};
ghost use Rattle.sheet.specs.Entered.{nothing_entered};
ghost use Rattle.sheet.specs.Held.{entered, entered_by};
ghost use Rattle.sheet.specs.Lines.{line_entered, ReadsSheet, FirstFault, EnteredInOrder};

use crate::notes::Notes;
use fields::fault::Stop;
use register::open::Open;
use std::alloc::Global;

// The register that a sheet's lines enter, and what they name and collect beside it.
#[derive(Drop)]
pub struct Reader<'a> {
    pub heap: Global,
    pub register: Open<'a>,
    pub notes: Notes,
}

impl<'a> Reader<'a> {
    // A reader that nothing was noted by.
    pub fn new(heap: Global, register: Open<'a>) -> Reader<'a>
        ensures register { result.register ≡ register.entry }
        ensures nothing { (o : Open) → held o ≡ blank_ledger → entered_by result.notes o ≡ nothing_entered }
        ensures blank { held register.entry ≡ blank_ledger → entered result ≡ nothing_entered }
    {
        let notes = Notes::new(heap);
        Reader {
            heap,
            register,
            notes,
        }
    }

    // Reads one line, as the notes do.
    pub fn line(&mut self, line: u32, bytes: &[u8]) -> Result<(), Stop>
        ensures { Steps (line_entered line (entered self.old) bytes.now) (entered self.old) result (entered self.new) }
    {
        let Reader {
            heap,
            register,
            notes,
        } = self;
        notes.line(*heap, register, line, bytes)
    }

    // Reads all lines of a sheet, as the notes do.
    pub fn read(&mut self, sheet: &[u8]) -> Result<(), Stop>
        ensures reads { ReadsSheet (entered self.old) sheet.now result (entered self.new) }
        ensures first_fault { FirstFault }
        ensures in_order { EnteredInOrder }
        ensures parted { AllParted }
        ensures numbers { NumbersLaw }
        ensures places { PlacesExact }
    {
        let Reader {
            heap,
            register,
            notes,
        } = self;
        notes.read(*heap, register, sheet)
    }
}
