//! Laws of the codec, each the contract of a function that does nothing.
ghost use Rattle.std.specs.Prelude.{◌≡◌};
ghost use Rattle.proto_core.specs.Codec.{FindsReadable, ForEachCut, LacksFirst, first_told, front, left, readable, without_front};

use nl_core::NetlinkDeserializable;

/// What a codec takes out of bytes follows their cut: the first frame, as its message or as
/// unreadable, or else the rest; and the first message of its frames that can be read.
pub fn codec_follows_cut<T: NetlinkDeserializable>()
    ensures front { ForEachCut (λ bytes frames rest. front T.reads bytes ≡ first_told T.reads frames rest) }
    ensures without_front { ForEachCut (λ bytes frames rest. LacksFirst frames rest (without_front bytes)) }
    ensures readable { ForEachCut (λ bytes frames rest.
        FindsReadable T.reads frames rest (readable T.reads bytes) (left T.reads bytes)) }
{}
