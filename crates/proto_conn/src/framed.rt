//! Messages over a link.
ghost use Rattle.std.specs.Prelude.{◌≡◌, ◌+◌, ◌<◌, ◌≤◌, [], ◌++◌, length, IfErr, IfOk, IfSome, OnErr, OnOk, not, true};
ghost use Rattle.std.specs.List.{list_all};
ghost use Rattle.nl_core.specs.Frames.{message_fits, message_text};
ghost use Rattle.session_model.specs.Events.{overrun_arrival};
ghost use Rattle.proto_conn.specs.Flushing.{is_nothing};
ghost use Rattle.proto_core.specs.Codec.{readable};
ghost use Rattle.proto_conn.specs.Next.{IsNext, Skipped, StaysInside};
ghost use Rattle.proto_conn.specs.Polls.{Gets};
ghost use Rattle.proto_conn.specs.Seen.{IsStep};
ghost use Rattle.proto_conn.specs.Sending.{DidFlush, IsRefusal, texts};

mod batch;
mod submitting;

use crate::link::{Link, Received, Sent};
use bytes::BytesMut;
use nl_core::{
    Items, NLMSG_OVERRUN, NetlinkDeserializable, NetlinkHeader, NetlinkMessage, NetlinkPayload,
    NetlinkSerializable, NoMemory, Octets,
};
use proto_core::{CodecError, Decoded, NetlinkMessageCodec};
use session_model::SocketAddr;
use std::alloc::Global;
use std::marker::{Model, PhantomData};

/// What is dropped of a datagram.
#[derive(Clone, Copy, Debug, PartialEq, Eq)]
pub enum Dropped {
    /// A frame that can't be read, by the type and the number in its header.
    Unreadable {
        message_type: u16,
        sequence_number: u32,
    },
    /// So many bytes after the last frame.
    Rest {
        bytes: usize,
    },
}

/// The answer of a poll.
#[derive(Clone, Copy, Debug, PartialEq, Eq)]
pub enum Polled<X> {
    Ready(X),
    /// Nothing comes any more.
    Ended,
    NotYet,
}

/// Why a message isn't sent.
#[derive(Clone, Copy, Debug, PartialEq, Eq)]
pub enum FramedError {
    LinkFailed,
    /// The link took a part of a datagram.
    Short { took: usize, len: usize },
    Unfit,
    NoMemory,
}

// One step of reading.
#[derive(Drop)]
pub enum Step<T> {
    Message(NetlinkMessage<T>, SocketAddr),
    Lost(Dropped, SocketAddr),
    Overrun,
    Fetched,
    Closed,
    Failed,
    NotYet,
}

/// Messages over a link: datagrams are read frame by frame, and frames are gathered and sent as one datagram.
#[derive(Drop)]
pub struct NetlinkFramed<T, S, C> {
    alloc: Global,
    socket: S,
    reader: BytesMut,
    writer: BytesMut,
    source: SocketAddr,
    destination: SocketAddr,
    message: PhantomData<T>,
    codec: PhantomData<C>,
}

impl<T, S, C> Model for NetlinkFramed<T, S, C> {
    ghost use Rattle.std.specs.Prelude.{◌≤◌, length};
    ghost use Rattle.proto_conn.specs.Seen.{Framing};

    ghost Value = { Framing S };

    ghost view = { λ f. record {
      link = f.socket;
      reader = f.reader.items;
      source = f.source;
      writer = f.writer.items;
      destination = f.destination;
    } };

    ghost invariant = { λ f. length f.reader.items ≤ 65536 };
}

impl<T, S, C> NetlinkFramed<T, S, C> {
    ghost use Rattle.std.specs.Borrow.{Lends, sem};
    ghost use Rattle.proto_conn.specs.contracts.framed.NetlinkFramed.{the_row};
    ghost use Rattle.proto_conn.specs.Fresh.{fresh_framing};

    /// The link.
    pub fn get_mut(&mut self) -> &mut S
        ensures* lends { sem 𝓛 (Lends (the_row T.row S.row C.row) S.row self.entry result
            (λ link. record self.entry.now { link = link })) }
        ensures now { result.now ≡ self.old.link }
    {
        &mut self.socket
    }

    /// Nothing read and nothing to be sent, with buffers of 65,536 and 8,192 bytes. A refusal hands the link back.
    pub fn new(alloc: Global, socket: S) -> Result<Self, (NoMemory, S)>
        ensures ok { IfOk result (λ f. f ≡ fresh_framing socket) }
        ensures back { IfErr result (λ e. e.1 ≡ socket) }
    {
        let Ok(reader) = BytesMut::with_capacity(alloc, 65536) else {
            return Err((NoMemory, socket));
        };
        let Ok(writer) = BytesMut::with_capacity(alloc, 8192) else {
            return Err((NoMemory, socket));
        };
        let nowhere = SocketAddr { port: 0, groups: 0 };
        Ok(NetlinkFramed {
            alloc,
            socket,
            reader,
            writer,
            source: nowhere,
            destination: nowhere,
            message: PhantomData,
            codec: PhantomData,
        })
    }

    /// The link.
    pub fn get_ref(&self) -> &S
        ensures { result.now ≡ self.now.link }
    {
        &self.socket
    }

    /// The link.
    pub fn into_inner(self) -> S
    where
        S: Drop,
        ensures { result ≡ self.link }
    {
        self.socket
    }

    // Whether something is to be sent.
    pub fn has_unsent(&self) -> bool
        ensures { result ≡ not (is_nothing self.now.writer) }
    {
        !self.writer.is_empty()
    }

    // The bytes of a datagram that aren't read yet.
    pub fn unread(&self) -> &[u8]
        ensures { result.now ≡ self.now.reader }
    {
        self.reader.as_slice()
    }

    // Nothing of a datagram is left to be read.
    pub fn drop_unread(&mut self)
        ensures { self.new ≡ record self.old { reader = [] } }
    {
        self.reader.clear();
    }

    // Where the datagram came from.
    pub fn source(&self) -> SocketAddr
        ensures { result ≡ self.now.source }
    {
        self.source
    }

    // A reader never holds more than one datagram.
    pub fn hold_bound(&self)
        ensures { length self.now.reader ≤ 65536 }
    {
        let _len = self.reader.len();
    }
}

impl<T: NetlinkDeserializable, S: Link, C: NetlinkMessageCodec> NetlinkFramed<T, S, C> {
    // Asks the link for one datagram.
    fn fetch(&mut self) -> Result<Step<T>, NoMemory>
        requires { self.old.reader ≡ [] }
        ensures step { IfOk result (λ step. IsStep T.reads S.meaning self.old step self.new) }
        ensures err { OnErr result (self.new ≡ self.old) }
    {
        self.reader.clear();
        self.reader.reserve(65536)?;
        match self.socket.recv(&mut self.reader) {
            Received::Datagram(source) => {
                self.source = source;
                Ok(Step::Fetched)
            }
            Received::Overrun => Ok(Step::Overrun),
            Received::NotReady => Ok(Step::NotYet),
            Received::Closed => Ok(Step::Closed),
            Received::Failed => Ok(Step::Failed),
        }
    }

    // One read of the link, into an empty reader.
    pub fn receive(&mut self) -> Result<Received, NoMemory>
        requires { self.old.reader ≡ [] }
        ensures ok { IfOk result (λ answer. Gets S.meaning self.old answer self.new) }
        ensures err { OnErr result (self.new ≡ self.old) }
    {
        self.reader.clear();
        self.reader.reserve(65536)?;
        match self.socket.recv(&mut self.reader) {
            Received::Datagram(source) => {
                self.source = source;
                Ok(Received::Datagram(source))
            }
            Received::Overrun => Ok(Received::Overrun),
            Received::NotReady => Ok(Received::NotReady),
            Received::Closed => Ok(Received::Closed),
            Received::Failed => Ok(Received::Failed),
        }
    }

    // Whether bytes of a datagram are left.
    pub fn has_unread(&self) -> bool
        ensures { result ≡ not (is_nothing self.now.reader) }
    {
        !self.reader.is_empty()
    }

    // One step: what stands at the front of the reader, or else a datagram of the link.
    pub fn step(&mut self) -> Result<Step<T>, NoMemory>
        ensures step { IfOk result (λ step. IsStep T.reads S.meaning self.old step self.new) }
        ensures inside { IfOk result (λ step. StaysInside T.reads self.old step self.new) }
        ensures err { OnErr result (self.new ≡ self.old) }
    {
        match C::decode_next(self.alloc, &mut self.reader)? {
            Decoded::Message(message) => Ok(Step::Message(message, self.source)),
            Decoded::Unreadable {
                message_type,
                sequence_number,
            } => {
                let what = Dropped::Unreadable {
                    message_type,
                    sequence_number,
                };
                Ok(Step::Lost(what, self.source))
            }
            Decoded::Rest { bytes } => Ok(Step::Lost(Dropped::Rest { bytes }, self.source)),
            Decoded::Empty => self.fetch(),
        }
    }

    /// The next message that can be read, with where it came from. The link is asked only where no readable message is
    /// left of the datagram before. An overrun is a message of its own.
    pub fn poll_next(&mut self) -> Result<Polled<(NetlinkMessage<T>, SocketAddr)>, NoMemory>
        ensures ok { IfOk result (λ answer. IsNext T.reads S.meaning self.old answer self.new) }
        ensures err { OnErr result (Skipped T.reads S.meaning self.old [] self.new) }
        ensures unasked { IfSome (readable T.reads self.old.reader) (λ _. self.new.link ≡ self.old.link) }
    {
        'skipping: loop {
            match self.step()? {
                Step::Message(message, source) => return Ok(Polled::Ready((message, source))),
                Step::Overrun => {
                    let source = SocketAddr { port: 0, groups: 0 };
                    return Ok(Polled::Ready((overrun_message(self.alloc), source)));
                }
                Step::Lost(_what, _source) => {}
                Step::Fetched => {}
                Step::Closed => return Ok(Polled::Ended),
                Step::Failed => return Ok(Polled::Ended),
                Step::NotYet => return Ok(Polled::NotYet),
            }
        }
    }
}

// The message that an overrun of the link is.
pub fn overrun_message<T>(alloc: Global) -> NetlinkMessage<T>
    ensures { result ≡ overrun_arrival.message }
{
    let header = NetlinkHeader {
        length: 16,
        message_type: NLMSG_OVERRUN,
        ..NetlinkHeader::default()
    };
    NetlinkMessage::new(header, NetlinkPayload::Overrun(Octets::new(alloc)))
}

impl<T: NetlinkSerializable + Drop, S: Link, C: NetlinkMessageCodec> NetlinkFramed<T, S, C> {
    /// Appends the frame of a message to what is to be sent, and keeps where it goes.
    pub fn start_send(&mut self, item: (NetlinkMessage<T>, SocketAddr)) -> Result<(), FramedError>
        ensures ok { OnOk result (self.new ≡
            record self.old { writer = self.old.writer ++ message_text T.text item.0; destination = item.1 }) }
        ensures err { OnErr result (self.new ≡ self.old) }
        ensures fits { OnOk result (message_fits T.text T.fitting item.0 ≡ true) }
        ensures cause { IfErr result (λ e. IsRefusal (message_fits T.text T.fitting item.0) e) }
    {
        let (message, destination) = item;
        match C::encode(message, &mut self.writer) {
            Ok(()) => {
                self.destination = destination;
                Ok(())
            }
            Err(CodecError::Unfit) => Err(FramedError::Unfit),
            Err(CodecError::NoMemory) => Err(FramedError::NoMemory),
        }
    }
}

impl<T, S: Link, C> NetlinkFramed<T, S, C> {
    // Sends what is to be sent, which is something.
    fn send_all(&mut self) -> Result<Polled<()>, FramedError>
        requires { 0 < length self.old.writer }
        ensures { DidFlush S.meaning self.old result self.new }
    {
        let len = self.writer.len();
        match self.socket.send(self.writer.as_slice(), self.destination) {
            Sent::Sent(took) => {
                self.writer.clear();
                if took == len {
                    Ok(Polled::Ready(()))
                } else {
                    Err(FramedError::Short { took, len })
                }
            }
            Sent::NotReady => Ok(Polled::NotYet),
            Sent::Failed => {
                self.writer.clear();
                Err(FramedError::LinkFailed)
            }
            Sent::NoMemory => Err(FramedError::NoMemory),
        }
    }

    /// Sends what is to be sent as one datagram to where the last message goes; nothing where nothing is to be sent.
    pub fn poll_flush(&mut self) -> Result<Polled<()>, FramedError>
        ensures did { DidFlush S.meaning self.old result self.new }
        ensures idle { self.old.writer ≡ [] → self.new ≡ self.old }
    {
        if self.writer.is_empty() {
            return Ok(Polled::Ready(()));
        }
        self.send_all()
    }

    /// The same before a message is appended.
    pub fn poll_ready(&mut self) -> Result<Polled<()>, FramedError>
        ensures did { DidFlush S.meaning self.old result self.new }
        ensures idle { self.old.writer ≡ [] → self.new ≡ self.old }
    {
        self.poll_flush()
    }

    /// The same at the end.
    pub fn poll_close(&mut self) -> Result<Polled<()>, FramedError>
        ensures did { DidFlush S.meaning self.old result self.new }
        ensures idle { self.old.writer ≡ [] → self.new ≡ self.old }
    {
        self.poll_flush()
    }
}
