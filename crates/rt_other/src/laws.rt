//! Laws of messages; each function's contract is the law, and it does nothing.
ghost use Rattle.rt_other.specs.Address as Address;
ghost use Rattle.rt_other.specs.Link as Link;
ghost use Rattle.rt_other.specs.Message.{FitsWhereShort};
ghost use Rattle.rt_other.specs.MessageForm.{MessagesReadBack, ReadMessagesReadBack};
ghost use Rattle.rt_other.specs.Route as Route;
ghost use Rattle.rt_other.specs.Rule as Rule;
ghost use Rattle.rt_other.specs.Stats.{CountersReadBack, ReadCountersReadBack};
ghost use Rattle.rt_other.specs.Tc as Tc;
ghost use Rattle.rt_other.specs.TcAction as TcAction;

use crate::message::{Attribute, Header};
use nl_core::Nla;

/// A message that fits reads back from its bytes, where its header and its attributes do.
pub fn messages_read_back<'a, H: Header, A: Attribute<'a, H::Param>>()
    ensures { MessagesReadBack (record {
      len = H.LEN;
      header_text = H.text;
      header_at = H.read;
      kind = A.kind_as_written;
      value = A.value_text;
      attribute_at = λ h. A.reads (H.by h);
      HeaderReadsBack = H.ReadsBack;
      AttributeReadsBack = λ h. A.ReadsBack (H.by h);
    }) }
{}

/// A message that was read from bytes and fits reads back from its bytes.
pub fn read_messages_read_back<'a, H: Header, A: Attribute<'a, H::Param>>()
    ensures { ReadMessagesReadBack (record {
      len = H.LEN;
      header_text = H.text;
      header_at = H.read;
      kind = A.kind_as_written;
      value = A.value_text;
      attribute_at = λ h. A.reads (H.by h);
      HeaderReadsBack = H.ReadsBack;
      AttributeReadsBack = λ h. A.ReadsBack (H.by h);
    }) }
{}

/// A message fits exactly where no attribute at any depth is longer than 65,535 bytes, and its
/// frame is at most 4,294,967,295 bytes long.
pub fn messages_fit_where_short<H: Header, A: Nla>()
    ensures { FitsWhereShort H.text A.kind_as_written A.value_text }
{}

/// A message on addresses of links that fits reads back from its bytes, where its numbers fit their
/// fields, its family and its attributes read back.
pub fn address_messages_read_back()
    ensures { Address.MessagesReadBack }
{}

/// A message on links that fits reads back from its bytes, where its numbers fit their fields, its
/// family and its attributes read back.
pub fn link_messages_read_back()
    ensures { Link.MessagesReadBack }
{}

/// A message on routes that fits reads back from its bytes, where its numbers fit their fields, its
/// family and its attributes read back.
pub fn route_messages_read_back()
    ensures { Route.MessagesReadBack }
{}

/// A message on rules that fits reads back from its bytes, where its numbers fit their fields, its
/// family and its attributes read back.
pub fn rule_messages_read_back()
    ensures { Rule.MessagesReadBack }
{}

/// A message on traffic control that fits reads back from its bytes, where its numbers fit their
/// fields, its family and its attributes read back.
pub fn tc_messages_read_back()
    ensures { Tc.MessagesReadBack }
{}

/// A message on actions of traffic control that fits reads back from its bytes, where its numbers
/// fit their fields, its family and its attributes read back.
pub fn tc_action_messages_read_back()
    ensures { TcAction.MessagesReadBack }
{}

/// Counters of eight bytes each read back from their bytes, and counters that were read have the
/// bytes that they were read from.
pub fn counters_read_back()
    ensures written { CountersReadBack }
    ensures read { ReadCountersReadBack }
{}
