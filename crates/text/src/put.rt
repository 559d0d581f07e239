// Fields and lines, put behind the bytes written so far. No Display: a name is bytes of the sheet.
ghost use Rattle.std.specs.Prelude.{◌≡◌, [], ◌∷◌, ◌++◌, map, vec_items, OnOk, slice_index_or};
ghost use Rattle.automata.specs.Automaton.{production};
ghost use Rattle.text.specs.Text.{figure, row_text};

use automata::row::Row;
use itoa::Buffer;
use std::alloc::AllocError;

// Puts a tab and the bytes.
pub fn put_field(out: &mut Vec<u8>, bytes: &[u8]) -> Result<(), AllocError>
    ensures { OnOk result (out.new.items ≡ out.old.items ++ (9 ∷ bytes.now)) }
{
    out.push(b'\t')?;
    out.extend_from_slice(bytes)
}

// Puts a tab and the number in decimal.
pub fn put_number(out: &mut Vec<u8>, n: usize) -> Result<(), AllocError>
    ensures { OnOk result (out.new.items ≡ out.old.items ++ figure n) }
{
    put_field(out, Buffer::new().format(n).as_bytes())
}

// The name of a form; empty where it has none.
fn name_of<'a>(names: &'a [Vec<u8>], form: usize) -> &'a [u8]
    ensures { result.now ≡ slice_index_or (map vec_items names.now) form [] }
{
    names.get(form).map_or(&[], |name| name.as_slice())
}

// Puts the line of a row of a state.
pub fn put_row(
    out: &mut Vec<u8>,
    names: &[Vec<u8>],
    state: usize,
    row: Row,
) -> Result<(), AllocError>
    ensures { OnOk result (out.new.items ≡ out.old.items ++ row_text (map vec_items names.now) state (production row)) }
{
    out.push(b'R')?;
    put_number(out, state)?;
    put_field(out, name_of(names, row.form as usize))?;
    put_number(out, row.points as usize)?;
    for child in row.children() {
        put_number(out, *child as usize)?;
    }
    out.push(b'\n')?;
    Ok(())
}
