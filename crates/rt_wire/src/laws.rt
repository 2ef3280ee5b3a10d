//! Laws of messages; each function's contract is the law, and it does nothing.
ghost use Rattle.rt_wire.specs.AddrLabel as AddrLabel;
ghost use Rattle.rt_wire.specs.Nsid as Nsid;
ghost use Rattle.rt_wire.specs.Prefix as Prefix;

/// A message on an address label that fits reads back from its bytes, where its numbers fit their
/// fields, its family and its attributes read back.
pub fn address_label_messages_read_back()
    ensures { AddrLabel.MessagesReadBack }
{}

/// A message on a network namespace that fits reads back from its bytes, where its family and its
/// attributes read back.
pub fn namespace_messages_read_back()
    ensures { Nsid.MessagesReadBack }
{}

/// A message on a prefix that fits reads back from its bytes, where its numbers fit their fields,
/// and its attributes read back.
pub fn prefix_messages_read_back()
    ensures { Prefix.MessagesReadBack }
{}
