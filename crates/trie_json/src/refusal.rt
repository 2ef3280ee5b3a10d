//! Why a JSON value is no map or set of prefixes.

ghost use Rattle.std.specs.Prelude.{◌≡◌};
ghost use Rattle.trie_json.specs.declared.refusal.JsonRefusal.TheVariants.{NoMemory as OutOfMemory};

use nl_core::NoMemory;
use thiserror::Error;

/// Why a JSON value is no map or set of prefixes. The first bad element of a list decides, and of its
/// causes the first of these. A place in the list counts from 0.
#[derive(Clone, Copy, Debug, PartialEq, Eq, Error)]
pub enum JsonRefusal {
    /// The value isn't a list.
    #[error("not a list")]
    NotList,
    /// The element at this place isn't a list of two.
    #[error("element {at} is not a list of two")]
    NotPair { at: usize },
    /// The element at this place has no prefix, or one whose bits or length are out of range.
    #[error("element {at} has a bad prefix")]
    BadPrefix { at: usize },
    /// The element at this place has something else than an item beside its prefix.
    #[error("element {at} has a bad item")]
    BadItem { at: usize },
    /// Memory ran out.
    #[error("no memory")]
    NoMemory,
}

impl From<NoMemory> for JsonRefusal {
    ghost from_gives = { λ _ e. e ≡ OutOfMemory };

    fn from(_: NoMemory) -> Self {
        JsonRefusal::NoMemory
    }
}
