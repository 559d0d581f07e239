// The coarsest grouping of an automaton's states that respects their rows, by rounds of refinement.
ghost use Rattle.std.specs.Prelude.{◌≡◌, ℕ, ◌+◌, ◌*◌, ◌<◌, ◌≤◌, true, map, length, IfOk, vec_len, Decides};
ghost use Rattle.automata.specs.Automaton.{production};
ghost use Rattle.automata.specs.Rows.{renamed};
ghost use Rattle.merge.specs.Merge.{at, Coarsest};
ghost use Rattle.merge.specs.Refine.{key_of, Keys, Alike, LowestKeyed, KeysTo, Refined};

use crate::row_key::RowKey;
use automata::automaton::Automaton;
use automata::row::Row;
use layers::table::table;
use std::alloc::{AllocError, Global};

// The group of a state, or 0 past the end.
pub(crate) fn group_of(groups: &[u16], state: usize) -> u16
    ensures { result ≡ at groups.now state }
{
    groups.get(state).copied().unwrap_or(0)
}

// The key of a row: its children read as groups.
fn key(groups: &[u16], row: Row) -> RowKey
    ensures { result ≡ key_of (renamed (at groups.now) (production row)) }
{
    let mut children = [0; 4];
    for (i, child) in row.children().iter().enumerate() {
        children[i] = group_of(groups, *child as usize);
    }
    RowKey {
        form: row.form,
        points: row.points,
        arity: row.children().len() as u8,
        children,
    }
}

// The keys of a state's rows, in order.
fn keys(heap: Global, groups: &[u16], rows: &[Row]) -> Result<Vec<RowKey>, AllocError>
    ensures { IfOk result (λ v. Keys (map (renamed (at groups.now)) (map production rows.now)) v.items) }
{
    let mut all: Vec<RowKey> = rows.iter().map(|row| key(groups, *row)).collect(heap)?;
    all.sort_unstable();
    Ok(all)
}

// The keys of every state.
fn key_table(
    heap: Global,
    groups: &[u16],
    rows: &[Vec<Row>],
) -> Result<Vec<Vec<RowKey>>, AllocError>
    ensures { IfOk result (λ v. KeysTo (at groups.now) rows.now v.items (length rows.now)) }
{
    rows.iter()
        .map(|list| keys(heap, groups, list))
        .try_collect(heap)
}

// What a round of refinement goes by: the group of each state, and the keys of its rows.
#[derive(Drop)]
struct Keyed<'a> {
    groups: &'a [u16],
    keys: Vec<Vec<RowKey>>,
    ghost long: { length keys.items ≡ length groups.now },
}

impl Keyed<'_> {
    // Whether two states have one group and the same keys.
    fn alike(&self, one: usize, other: usize) -> bool
        requires one { one < length self.now.groups.now }
        requires other { other < length self.now.groups.now }
        ensures { Decides result (Alike self.now.groups.now self.now.keys.items one other) }
    {
        self.groups[one] == self.groups[other] && self.keys[one] == self.keys[other]
    }

    // The lowest state with the group and the keys of a state.
    fn lowest_like(&self, state: usize) -> usize
        requires { state < length self.now.groups.now }
        ensures { LowestKeyed self.now.groups.now self.now.keys.items state result }
    {
        (0..state)
            .find(|other| self.alike(*other, state))
            .unwrap_or(state)
    }
}

// One round: each state is named by the lowest of its group with the same rows.
fn refined(heap: Global, groups: &[u16], rows: &[Vec<Row>]) -> Result<Vec<u16>, AllocError>
    requires long { length groups.now ≡ length rows.now }
    requires few { length rows.now ≤ 1024 }
    ensures { IfOk result (λ v. Refined rows.now groups.now v.items) }
{
    let keys = key_table(heap, groups, rows)?;
    let keyed = Keyed { groups, keys };
    (0..rows.len())
        .map(|state| keyed.lowest_like(state) as u16)
        .collect(heap)
}

// The coarsest grouping that respects the rows: each state's lowest fellow.
pub(crate) fn coarsest<A: Automaton>(heap: Global, below: &A) -> Result<Vec<u16>, AllocError>
    ensures { IfOk result (λ v. Coarsest (A.Automaton.meaning below.now) (at v.items) × (vec_len v ≡ (A.Automaton.meaning below.now).states)) }
{
    let rows = table(heap, below)?;
    let mut groups: Vec<u16> = vec![in heap; 0; rows.len()]?;
    loop {
        let next = refined(heap, &groups, &rows)?;
        if next == groups {
            return Ok(groups);
        }
        groups = next;
    }
}
