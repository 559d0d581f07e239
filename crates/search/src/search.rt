// Searching for a ticket that a state accepts.
ghost use Rattle.std.specs.Prelude.{◌≡◌, ℕ, ◌<◌, ◌≤◌, true, false, length, take, drop, is_ok, IfOk, Ok, Err, MatchOption, MatchResult};
ghost use Rattle.arrayvec.specs.ArrayVec.{array_vec_len};
ghost use Rattle.layers.specs.Marks.{mark, Ready, Unready, Stuck};
ghost use Rattle.search.specs.Search.{search_checked, Found, Tells, Leaf};
ghost use Rattle.search.specs.Searched.{Searched};
ghost use Rattle.search.specs.Sweep.{Listed};

use crate::line::Line;
use arrayvec::ArrayVec;
use automata::automaton::Automaton;
use layers::marks::Marks;
use refusals::refusal::SearchRefusal;

// The place of a row of the state whose children are all marked, if there is one.
fn ready<A: Automaton>(automaton: &A, marks: &Marks, state: usize) -> Option<usize>
    ensures { MatchOption result (Unready (A.Automaton.meaning automaton.now) (mark marks.now) state) (λ k. Ready (A.Automaton.meaning automaton.now) (mark marks.now) state k) }
{
    (0..automaton.places()).find(|place| {
        automaton
            .row(state, *place)
            .is_some_and(|row| marks.has_children(row))
    })
}

// Lists each state but the start that has a row whose children are listed, and tells whether there was one.
fn sweep<A: Automaton>(
    automaton: &A,
    start: usize,
    marks: &mut Marks,
    order: &mut ArrayVec<Line, 1024>,
) -> bool
    requires listed { Listed (A.Automaton.meaning automaton.now) start (mark marks.old) order.old.items }
    requires unready { Unready (A.Automaton.meaning automaton.now) (mark marks.old) start }
    ensures listed { Listed (A.Automaton.meaning automaton.now) start (mark marks.new) order.new.items }
    ensures more { result ≡ true → array_vec_len order.old < array_vec_len order.new }
    ensures stuck { result ≡ false → Stuck (A.Automaton.meaning automaton.now) (mark marks.new) (A.Automaton.meaning automaton.now).states }
{
    let before = order.len();
    // over the states' numbers: a state is marked while the later ones are looked at
    for state in 0..automaton.states() {
        if state != start && !marks.has(state) {
            if let Some(place) = ready(automaton, marks, state) {
                marks.add(state);
                order.push(Line {
                    state: state as u16,
                    place,
                });
            }
        }
    }
    order.len() > before
}

// Lines that build up a ticket that the start accepts, each from earlier ones, and how many they are; zero where it
// accepts none. Lines past the count are unchanged, and so is the list on a refusal.
pub fn search<A: Automaton>(
    automaton: &A,
    start: usize,
    lines: &mut [Line],
) -> Result<usize, SearchRefusal>
    ensures refused { MatchResult result (λ _. search_checked (A.Automaton.meaning automaton.now) start (length lines.old) ≡ Ok tt) (λ e. search_checked (A.Automaton.meaning automaton.now) start (length lines.old) ≡ Err e) }
    ensures answers { IfOk result (λ n. (n ≤ length lines.old) × (0 < n → Found (A.Automaton.meaning automaton.now) start (take n lines.new))) }
    ensures searched { IfOk result (λ n. Searched (A.Automaton.meaning automaton.now) start n (take n lines.new)) }
    ensures tells { IfOk result (λ n. Tells (A.Automaton.meaning automaton.now) start n) }
    ensures leaf { IfOk result (λ n. Leaf (A.Automaton.meaning automaton.now) start → n ≡ 1) }
    ensures beyond { IfOk result (λ n. drop n lines.new ≡ drop n lines.old) }
    ensures same { is_ok result ≡ false → lines.new ≡ lines.old }
{
    let states = automaton.states();
    if start >= states {
        return Err(SearchRefusal::Start);
    }
    if lines.len() < states {
        return Err(SearchRefusal::Lines);
    }
    let mut marks = Marks::none();
    let mut order = ArrayVec::<Line, 1024>::new();
    loop {
        if let Some(place) = ready(automaton, &marks, start) {
            order.push(Line {
                state: start as u16,
                place,
            });
            let count = order.len();
            lines[..count].copy_from_slice(order.as_slice());
            return Ok(count);
        }
        if !sweep(automaton, start, &mut marks, &mut order) {
            return Ok(0);
        }
    }
}
