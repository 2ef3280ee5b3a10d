//! Tests of the list.
use crate::{InStream, StreamList};
use std::alloc::Global;
use std::test::Fail;

// A number of a stream.
#[derive(Clone, Copy, Debug, PartialEq, Eq)]
struct Numbered {
    stream: u64,
    number: u64,
}

impl InStream for Numbered {
    ghost stream = { λ n. n.stream };

    fn stream(&self) -> u64 {
        self.stream
    }
}

// The numbers 10, 20, .. of these streams.
fn listed(alloc: Global, streams: &[u64]) -> Result<StreamList<Numbered>, Fail> {
    let mut list = StreamList::new(alloc);
    let mut number = 10;
    for stream in streams {
        list.reserve_stream(*stream)?;
        list.reserve(1)?;
        list.push_back_reserved(Numbered {
            stream: *stream,
            number,
        });
        number = number.saturating_add(10);
    }
    Ok(list)
}

// The number of the oldest, of a stream or of all, which is taken out.
fn take(list: &mut StreamList<Numbered>, stream: Option<u64>) -> u64 {
    let item = match stream {
        Some(stream) => list.pop_front_of(stream),
        None => list.pop_front(),
    };
    match item {
        Some(item) => item.number,
        None => 0,
    }
}

#[test]
fn items_are_taken_by_stream_and_by_arrival(rt: HostRuntime) -> Result<(), Fail> {
    let mut list = listed(rt.alloc(), &[1, 2, 1, 3, 2, 1])?;
    let rows = [
        (Some(2), 20),
        (None, 10),
        (Some(4), 0),
        (Some(0), 0),
        (None, 30),
        (Some(2), 50),
        (Some(2), 0),
        (Some(1), 60),
        (None, 40),
        (None, 0),
        (Some(3), 0),
    ];
    for (stream, number) in rows {
        assert_eq!(rt; take(&mut list, stream), number);
    }
    Ok(())
}

#[test]
fn a_stream_is_cleared(rt: HostRuntime) -> Result<(), Fail> {
    let mut list = listed(rt.alloc(), &[1, 2, 1, 2])?;
    list.clear_of(1);
    assert_eq!(rt; take(&mut list, Some(1)), 0);
    list.reserve(1)?;
    list.reserve_stream(1)?;
    list.push_back_reserved(Numbered {
        stream: 1,
        number: 50,
    });
    for number in [20, 40, 50, 0] {
        assert_eq!(rt; take(&mut list, None), number);
    }
    Ok(())
}
