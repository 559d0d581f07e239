// The whole listing: counts, root, rows and tickets.
ghost use Rattle.std.specs.Prelude.{◌≡◌, ◌++◌, map, vec_items, OnOk};
ghost use Rattle.register.specs.Held.{held_sealed};
ghost use Rattle.listing.specs.Listing.{counts_text, root_text, listing_answer, Answers};

use crate::rows::{count_rows, put_rows};
use fields::fault::Stop;
use register::sealed::Sealed;
use std::alloc::{AllocError, Global};
use text::put::put_number;
use verdicts::ticket_lines::put_tickets;

// Puts the numbers of states and of rows.
fn put_counts(out: &mut Vec<u8>, sealed: &Sealed<'_>) -> Result<(), AllocError>
    ensures { OnOk result (out.new.items ≡ out.old.items ++ counts_text (held_sealed sealed.now)) }
{
    out.push(b'N')?;
    put_number(out, sealed.states())?;
    put_number(out, count_rows(sealed))?;
    out.push(b'\n')?;
    Ok(())
}

// Puts the root.
fn put_root(out: &mut Vec<u8>, sealed: &Sealed<'_>) -> Result<(), AllocError>
    ensures { OnOk result (out.new.items ≡ out.old.items ++ root_text (held_sealed sealed.now)) }
{
    out.push(b'G')?;
    put_number(out, sealed.root())?;
    out.push(b'\n')?;
    Ok(())
}

// The listing of a register and of the tickets of these nodes; the first ticket that the register's forms refuse ends it.
pub fn listing(
    heap: Global,
    names: &[Vec<u8>],
    sealed: &Sealed<'_>,
    tickets: &[Vec<u16>],
) -> Result<Vec<u8>, Stop>
    ensures answers { Answers (listing_answer (map vec_items names.now) (held_sealed sealed.now) (map vec_items tickets.now)) result }
{
    let mut out = Vec::new(heap);
    put_counts(&mut out, sealed)?;
    put_root(&mut out, sealed)?;
    put_rows(&mut out, names, sealed)?;
    put_tickets(&mut out, sealed, tickets)?;
    Ok(out)
}
