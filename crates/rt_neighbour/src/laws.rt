//! The law of messages; its function's contract is the law, and it does nothing.
ghost use Rattle.rt_neighbour.specs.Neighbour.{MessagesReadBack};

/// A message on a neighbour that fits reads back from its bytes, where its numbers fit their
/// fields, its family, its state and its attributes read back.
pub fn neighbour_messages_read_back()
    ensures { MessagesReadBack }
{}
