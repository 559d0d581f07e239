// Words for a person, put behind those written so far. Functions and no Display: the types stand in crates that write nothing.
ghost use Rattle.std.specs.Prelude.{◌≡◌, ◌++◌, OnOk, string_bytes, vec_len, count_by, nat_lt};
ghost use Rattle.register.specs.Held.{held_sealed};
ghost use Rattle.listing.specs.Listing.{row_count};
ghost use Rattle.reports.specs.Words.{count_text, read_text, bar_text, size_text};

use crate::grammar::Grammar;
use crate::levels::count_levels;
use listing::rows::count_rows;
use rules::bar::Nesting;
use settle::sizes::Size;
use std::alloc::AllocError;

// A number and what it counts. One call for each number: of one write of all six no search found the text.
fn put_count(out: &mut String, n: usize, what: &str) -> Result<(), AllocError>
    ensures { OnOk result (string_bytes out.new ≡ string_bytes out.old ++ count_text n what.now) }
{
    write!(out, "{n}{what}")
}

// How many of each a sheet enters.
pub fn put_read(out: &mut String, grammar: &Grammar<'_>) -> Result<(), AllocError>
    ensures { OnOk result (string_bytes out.new ≡ string_bytes out.old ++ read_text
        (vec_len grammar.now.notes.forms)
        (vec_len grammar.now.notes.states)
        (row_count (held_sealed grammar.now.sealed).rows)
        (count_by (λ level. nat_lt 0 level) grammar.now.notes.levels.items)
        (vec_len grammar.now.notes.bars)
        (vec_len grammar.now.notes.tickets)) }
{
    let Grammar { sealed, notes } = grammar;
    out.push_str("read ")?;
    put_count(out, notes.forms.len(), " forms, ")?;
    put_count(out, notes.states.len(), " states, ")?;
    put_count(out, count_rows(sealed), " rows, ")?;
    put_count(out, count_levels(&notes.levels), " levels, ")?;
    put_count(out, notes.bars.len(), " bars, ")?;
    put_count(out, notes.tickets.len(), " tickets\n")
}

// The line that names a bar.
pub fn put_bar(out: &mut String, bar: Nesting) -> Result<(), AllocError>
    ensures { OnOk result (string_bytes out.new ≡ string_bytes out.old ++ bar_text bar) }
{
    let outer = bar.outer;
    let position = bar.position;
    let inner = bar.inner;
    write!(
        out,
        "bar: form {inner} at position {position} of form {outer}\n"
    )
}

// How large what a step makes is.
pub fn put_size(out: &mut String, name: &str, size: Size) -> Result<(), AllocError>
    ensures { OnOk result (string_bytes out.new ≡ string_bytes out.old ++ size_text name.now size) }
{
    let states = size.states;
    let rows = size.rows;
    write!(out, "  {name}: {states} states reached, {rows} rows\n")
}
