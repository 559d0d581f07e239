// A fault in a sentence for a person.
ghost use Rattle.std.specs.Prelude.{◌≡◌, IfOk, string_bytes};
ghost use Rattle.programs.specs.Sentence.{sentence_text};

use fields::fault::Fault;
use std::alloc::{AllocError, Global};

// Where the fault is, if it is of a line or a field, and what was wrong; LF ends it.
pub fn sentence(heap: Global, fault: Fault) -> Result<String, AllocError>
    ensures value { IfOk result (λ s. string_bytes s ≡ sentence_text fault) }
{
    format!(in heap; "{fault}\n")
}
