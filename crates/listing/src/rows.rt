// The rows of a sealed register, by state and place, and how many there are.
ghost use Rattle.std.specs.Prelude.{◌≡◌, ◌++◌, map, vec_items, OnOk};
ghost use Rattle.ledger.specs.Ledger.{rows_at};
ghost use Rattle.register.specs.Held.{held_sealed};
ghost use Rattle.listing.specs.Listing.{state_text, rows_text, row_count};

use automata::automaton::Automaton;
use register::sealed::Sealed;
use std::alloc::AllocError;
use text::put::put_row;

// Puts a line for each row of a state.
fn put_state_rows(
    out: &mut Vec<u8>,
    names: &[Vec<u8>],
    sealed: &Sealed<'_>,
    state: usize,
) -> Result<(), AllocError>
    ensures { OnOk result (out.new.items ≡ out.old.items ++ state_text (map vec_items names.now) state (rows_at (held_sealed sealed.now) state)) }
{
    let book = sealed.book();
    // a loop: each line can fail, and `?` ends the loop
    for place in 0..sealed.rows_of(state) {
        if let Some(row) = book.row(state, place) {
            put_row(out, names, state, row)?;
        }
    }
    Ok(())
}

// Puts the rows of all states.
pub fn put_rows(out: &mut Vec<u8>, names: &[Vec<u8>], sealed: &Sealed<'_>) -> Result<(), AllocError>
    ensures { OnOk result (out.new.items ≡ out.old.items ++ rows_text (map vec_items names.now) 0 (held_sealed sealed.now).rows) }
{
    for state in 0..sealed.states() {
        put_state_rows(out, names, sealed, state)?;
    }
    Ok(())
}

// How many rows all states have.
pub fn count_rows(sealed: &Sealed<'_>) -> usize
    ensures { result ≡ row_count (held_sealed sealed.now).rows }
{
    (0..sealed.states())
        .map(|state| sealed.rows_of(state))
        .sum()
}
