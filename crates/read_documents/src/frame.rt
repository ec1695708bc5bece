//! The call that cuts a text into documents.

ghost use Rattle.std.specs.Prelude.{◌≡◌, ◌<◌, ◌^◌, length, IfOk};
ghost use Rattle.read_documents.specs.Documents.{documents_of};

use crate::parts::Documents;
use crate::scan::Scan;
use crate::text::{first_line, trimmed};
use std::alloc::{AllocError, Global};

/// The documents of a text, up to the first line where it is no sequence of documents; `linked` is whether functions
/// are read in the linked language. The error is want of memory.
pub fn documents(alloc: Global, linked: bool, text: &[u8]) -> Result<Documents, AllocError>
    requires { length text.now < 2 ^ 31 }
    ensures { IfOk result (λ documents. documents ≡ documents_of linked text.now) }
{
    let mut scan = Scan::new(alloc, linked);
    let mut last = 0;
    let mut rest = text;
    while !rest.is_empty() {
        let (line, behind) = first_line(rest);
        let line = trimmed(line);
        let bad = scan.fault(last + 1, line);
        if bad.is_some() {
            return Ok(scan.found(bad));
        }
        scan.take(alloc, last + 1, line)?;
        last += 1;
        rest = behind;
    }
    let bad = scan.fault_at_end(last);
    Ok(scan.found(bad))
}
