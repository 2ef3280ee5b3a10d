//! Laws of attributes that are the value of another one; each function's contract is the law, and
//! it does nothing.
ghost use Rattle.rt_link_xstats.specs.Nested.{NestedListsReadBack, ReadNestedListsReadBack};

use rt_other::Attribute;

/// Attributes whose bytes fit as the value of another one read back from these bytes, where each of
/// them does.
pub fn nested_lists_read_back<'a, X: Attribute<'a, ()>>()
    ensures { NestedListsReadBack X.kind_as_written X.value_text (X.reads tt) (X.ReadsBack tt) }
{}

/// Attributes that were read from bytes, and whose bytes fit as the value of another one, read back
/// from their bytes.
pub fn read_nested_lists_read_back<'a, X: Attribute<'a, ()>>()
    ensures { ReadNestedListsReadBack X.kind_as_written X.value_text (X.reads tt) }
{}
