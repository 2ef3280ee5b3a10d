//! Laws of messages; each function's contract is the law, and it does nothing.
ghost use Rattle.rt_stats.specs.AfSpec.{EntriesReadBack};
ghost use Rattle.rt_stats.specs.HwInfo.{InformationReadsBack};
ghost use Rattle.rt_stats.specs.Stats.{MessagesReadBack};

/// A message on statistics that fits reads back from its bytes, where its numbers fit their fields,
/// its family and its attributes read back.
pub fn statistics_messages_read_back()
    ensures { MessagesReadBack }
{}

/// Counters of MPLS read back from the bytes of their entry, whatever bytes follow, where they fit
/// their fields; and what is said of hardware that counts reads back from its bytes.
pub fn entries_read_back()
    ensures mpls { EntriesReadBack }
    ensures hardware { InformationReadsBack }
{}
