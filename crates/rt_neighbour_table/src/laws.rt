//! The law of messages; its function's contract is the law, and it does nothing.
ghost use Rattle.rt_neighbour_table.specs.NeighbourTable.{MessagesReadBack};

/// A message on a neighbour table that fits reads back from its bytes, where its family and its
/// attributes read back.
pub fn neighbour_table_messages_read_back()
    ensures { MessagesReadBack }
{}
