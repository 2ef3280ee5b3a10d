// What a mirror answers.
use crate::route::Route;

/// The answer for an address: `Stale` while the mirror isn't in step with its peer, else the route that answers, or
/// `Absent` where there is none.
#[derive(Clone, Copy, Debug, PartialEq, Eq)]
pub enum Answer {
    Stale,
    Absent,
    Found(Route),
}
