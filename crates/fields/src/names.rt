// Names in a list of names.
ghost use Rattle.std.specs.Prelude.{◌≡◌, map, vec_items};
ghost use Rattle.fields.specs.Fault.{Collects, pointed};
ghost use Rattle.fields.specs.Tokens.{others, to_read, line_of, head};
ghost use Rattle.fields.specs.Names.{place_of, fresh_at, given_at, new_at, known_at, places_at};

use crate::fault::{Fault, Stop};
use crate::lexer::Lexer;
use refusals::refusal::SheetRefusal;
use std::alloc::Global;

// The place of the name, if it is given.
pub fn find(names: &[Vec<u8>], name: &[u8]) -> Option<usize>
    ensures { result ≡ place_of name.now (map vec_items names.now) }
{
    names.iter().position(|n| n.as_slice() == name)
}

// The place of a name that is given, or the refusal of that line and field.
pub fn given(names: &[Vec<u8>], name: &[u8], line: u32, field: u32) -> Result<usize, Fault>
    ensures { result ≡ given_at (map vec_items names.now) line field name.now }
{
    find(names, name).ok_or(Fault {
        field,
        ..Fault::new(SheetRefusal::NotGiven.into(), line)
    })
}

// Refuses a name that is given already.
pub fn fresh(names: &[Vec<u8>], name: &[u8], line: u32, field: u32) -> Result<(), Fault>
    ensures { result ≡ fresh_at (map vec_items names.now) line field name.now }
{
    if find(names, name).is_some() {
        return Err(Fault {
            field,
            ..Fault::new(SheetRefusal::Given.into(), line)
        });
    }
    Ok(())
}

// A read is told its field's number, as the meaning of each kind of line writes it. A count in the lexer would have to stop
// at the highest u32, and each line function to require how many fields are read before it.
impl<'a> Lexer<'a> {
    // The next field as a name that is not given yet.
    pub fn fresh(&mut self, names: &[Vec<u8>], field: u32) -> Result<&'a [u8], Fault>
        ensures value { pointed result ≡ new_at (map vec_items names.now) (line_of self.old) field (head (to_read self.old)) }
        ensures after { to_read self.new ≡ others (to_read self.old) }
        ensures line { line_of self.new ≡ line_of self.old }
    {
        let name = self.name(field)?;
        fresh(names, name, self.line(), field)?;
        Ok(name)
    }

    // The next field as a name that is given, by its place.
    pub fn given(&mut self, names: &[Vec<u8>], field: u32) -> Result<usize, Fault>
        ensures value { result ≡ known_at (map vec_items names.now) (line_of self.old) field (head (to_read self.old)) }
        ensures after { to_read self.new ≡ others (to_read self.old) }
        ensures line { line_of self.new ≡ line_of self.old }
    {
        let name = self.name(field)?;
        given(names, name, self.line(), field)
    }

    // The places of the names that are left of the line, the first of which is the given field. A place or a field that
    // does not fit its type is answered as want of memory.
    pub fn places(&mut self, heap: Global, names: &[Vec<u8>], field: u32) -> Result<Vec<u16>, Stop>
        ensures value { Collects (places_at (map vec_items names.now) (line_of self.old) field (to_read self.old)) result }
        ensures line { line_of self.new ≡ line_of self.old }
    {
        let mut found = Vec::new(heap);
        let mut at = field;
        while !self.is_done() {
            let place = self.given(names, at)?;
            found.push(u16::try_from(place).map_err(|_| Stop::Memory)?)?;
            at = at.checked_add(1).ok_or(Stop::Memory)?;
        }
        Ok(found)
    }
}
