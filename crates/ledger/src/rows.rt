// Work on the lent rows and the table: checking and storing a row, striking one. The two stay two parameters: by a rule of
// the project the rows lie in the caller's list, and the table is a plain value beside it.
ghost use Rattle.std.specs.Prelude.{◌≡◌, ◌+◌, ◌-◌, ◌*◌, ◌<◌, ◌≤◌, true, false, length, take, is_ok, slice_index, slice_set};
ghost use Rattle.ledger.specs.Ledger.{enter, add_row, strike_row, as_row, row_answer, entry_answer, unnumbered, step};
ghost use Rattle.ledger.specs.Layout.{laid_out, Sane};
ghost use Rattle.ledger.specs.Closed.{closed};

use crate::table::Table;
use automata::row::Row;
use refusals::refusal::RegisterRefusal;

// By a rule of the project a store goes through a function that takes the whole list for writing.
fn store(rows: &mut [Row], at: usize, row: Row)
    requires { at < length rows.old }
    ensures { rows.new ≡ slice_set rows.old at row }
{
    rows[at] = row;
}

// The children as a row keeps them.
fn child_array(children: &[u16]) -> [u16; 4]
    requires { length children.now ≤ 4 }
    ensures { take (length children.now) result ≡ children.now }
{
    let mut all = [0; 4];
    all[..children.len()].copy_from_slice(children);
    all
}

// The checks of a row, and its place.
fn judged(
    table: &Table,
    state: usize,
    form: u16,
    points: u16,
    children: &[u16],
) -> Result<usize, RegisterRefusal>
    requires forms { table.now.forms ≤ 64 }
    requires states { table.now.states ≤ 64 }
    ensures { result ≡ row_answer (take table.now.forms table.now.arities) table.now.states (slice_index table.now.counts state) state (as_row form points children.now) }
{
    let used = table.used(state).ok_or(RegisterRefusal::NoState)?;
    let arity = table.arity(form as usize).ok_or(RegisterRefusal::NoForm)?;
    if points > 1000 {
        return Err(RegisterRefusal::HighPoints);
    }
    if children.len() != arity as usize {
        return Err(RegisterRefusal::ChildCount);
    }
    if !children
        .iter()
        .all(|child| (*child as usize) < table.states)
    {
        return Err(RegisterRefusal::NoChild);
    }
    if used >= 32 {
        return Err(RegisterRefusal::FullState);
    }
    Ok(used as usize)
}

// Stores a row behind the state's others, unless it is refused.
pub fn enter_row(
    rows: &mut [Row],
    table: &mut Table,
    state: usize,
    form: u16,
    points: u16,
    children: &[u16],
) -> Result<usize, RegisterRefusal>
    requires { Sane rows.old table.old }
    ensures answers { result ≡ entry_answer (laid_out rows.old table.old false) (add_row state (as_row form points children.now)) }
    ensures steps { laid_out rows.new table.new false ≡ step (laid_out rows.old table.old false) (enter (add_row state (as_row form points children.now))) }
    ensures same { is_ok result ≡ false → rows.new ≡ rows.old }
    ensures sane { Sane rows.new table.new }
{
    let place = judged(table, state, form, points, children)?;
    let row = Row {
        form,
        points,
        arity: table.arities[form as usize],
        children: child_array(children),
    };
    store(rows, state * 32 + place, row);
    table.counts[state] += 1;
    Ok(place)
}

// Moves each row after `at` and before `end` down by one.
fn close(rows: &mut [Row], at: usize, end: usize)
    requires before { at < end }
    requires within { end ≤ length rows.old }
    ensures { rows.new ≡ closed rows.old at end }
{
    rows.copy_within(at + 1..end, at);
}

// Takes a row from its state, unless there is none.
pub fn take_row(
    rows: &mut [Row],
    table: &mut Table,
    state: usize,
    place: usize,
) -> Result<(), RegisterRefusal>
    requires { Sane rows.old table.old }
    ensures answers { result ≡ unnumbered (entry_answer (laid_out rows.old table.old false) (strike_row state place)) }
    ensures steps { laid_out rows.new table.new false ≡ step (laid_out rows.old table.old false) (enter (strike_row state place)) }
    ensures same { is_ok result ≡ false → rows.new ≡ rows.old }
    ensures sane { Sane rows.new table.new }
{
    let used = table.used(state).ok_or(RegisterRefusal::NoState)? as usize;
    if place >= used {
        return Err(RegisterRefusal::NoRow);
    }
    let first = state * 32;
    close(rows, first + place, first + used);
    table.counts[state] -= 1;
    Ok(())
}
