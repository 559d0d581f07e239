// The line of a fault.
ghost use Rattle.std.specs.Prelude.{◌≡◌, IfOk};
ghost use Rattle.text.specs.Text.{fault_text};

use crate::put::{put_field, put_number};
use fields::fault::Fault;
use std::alloc::{AllocError, Global};

// The one line that tells a fault: its layer, number, line and field.
pub fn fault_line(heap: Global, fault: Fault) -> Result<Vec<u8>, AllocError>
    ensures value { IfOk result (λ v. v.items ≡ fault_text fault) }
{
    let mut out = Vec::new(heap);
    out.push(b'E')?;
    put_field(&mut out, fault.refusal.layer().as_bytes())?;
    put_number(&mut out, fault.refusal.number() as usize)?;
    put_number(&mut out, fault.line as usize)?;
    put_number(&mut out, fault.field as usize)?;
    out.push(b'\n')?;
    Ok(out)
}
