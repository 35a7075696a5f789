//! Which record is the open one.

ghost use Rattle.std.specs.Prelude.{◌≡◌, Some};
ghost use Rattle.lq_heap.specs.Records as spec;

use lq_linear::Form;
use lq_symbolic::{Opened, SymPtr};

// Whether two forms are equal.
fn same_form(a: &Form, b: &Form) -> bool
    ensures { result ≡ spec.same_form a.now b.now }
{
    a.terms() == b.terms() && a.constant() == b.constant()
}

/// Whether the record at this block and element is the open one.
pub(crate) fn is_at(at: &SymPtr, open: &Opened) -> bool
    ensures { result ≡ spec.is_at at.now (Some open.now) }
{
    open.at.block == at.block && same_form(&open.at.offset, &at.offset)
}
