//! The places of the oldest and the newest of some items.
ghost use Rattle.std.specs.Prelude.{◌≡◌, ℕ, ◌<◌, ◌≤◌, length, slice_index_or, OnOk};
ghost use Rattle.stream_list.specs.Places.{no_ends};

use std::alloc::AllocError;

// The places of the oldest and the newest of some items, if there are any.
#[derive(Clone, Copy, Debug, PartialEq, Eq)]
pub struct Ends {
    pub oldest: Option<usize>,
    pub newest: Option<usize>,
}

// Those of no items.
pub const NO_ENDS: Ends = Ends {
    oldest: None,
    newest: None,
};

impl Ends {
    ghost use Rattle.stream_list.specs.Places.{ends_with, ends_without};

    // Those with one item more, the newest.
    pub fn with(self, place: usize) -> Ends
        ensures { result ≡ ends_with place self }
    {
        Ends {
            oldest: self.oldest.or(Some(place)),
            newest: Some(place),
        }
    }

    // Those without the item between these two.
    pub fn without(self, previous: Option<usize>, next: Option<usize>) -> Ends
        ensures { result ≡ ends_without previous next self }
    {
        Ends {
            oldest: if previous.is_some() {
                self.oldest
            } else {
                next
            },
            newest: if next.is_some() {
                self.newest
            } else {
                previous
            },
        }
    }
}

// Makes the ends of streams reach that of a number; those that are added are of no items.
pub fn hold(streams: &mut Vec<Ends>, stream: u64) -> Result<(), AllocError>
    ensures held { OnOk result (stream < length streams.new.items) }
    ensures same { (s : ℕ) → slice_index_or streams.new.items s no_ends ≡ slice_index_or streams.old.items s no_ends }
    ensures more { length streams.old.items ≤ length streams.new.items }
{
    while streams.len() as u64 <= stream {
        streams.push(NO_ENDS)?;
    }
    Ok(())
}

// The ends of a stream; those of no items where it has none.
pub fn ends_at(streams: &[Ends], stream: u64) -> Ends
    ensures { result ≡ slice_index_or streams.now stream no_ends }
{
    match streams.get(stream as usize) {
        Some(ends) => *ends,
        None => NO_ENDS,
    }
}
