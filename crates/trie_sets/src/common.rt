//! The longest prefix that contains two places.

ghost use Rattle.std.specs.Prelude.{◌≡◌, ℕ, ◌+◌, ◌<◌, ◌≤◌};
ghost use Rattle.trie_model.specs.Nets.{IsNet, masked, net_of};
ghost use Rattle.view_model.specs.Union.{IsLongestCommon};

use trie_map::KeyBits;

/// How many bits two places have in common.
pub(crate) fn common_len<W: KeyBits>(key: W, len: u32, other_key: W, other_len: u32) -> u32
    requires key { IsNet W.width (net_of (W.number key) len) }
    requires other { IsNet W.width (net_of (W.number other_key) other_len) }
    ensures common { IsLongestCommon W.width (net_of (W.number key) len) (net_of (W.number other_key) other_len)
        (net_of (masked W.width (W.number key) result) result) }
    ensures low { result ≤ len }
{
    key.common_bits(other_key).min(len).min(other_len)
}
