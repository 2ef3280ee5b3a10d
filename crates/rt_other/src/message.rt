//! Messages: a header of a fixed length and the attributes after it.
#![tactic(auto, using(nl_core::proofs::Wire::writes))]

ghost use Rattle.std.specs.Prelude.{◌≡◌, ◌≤◌, ◌<◌, ◌++◌, [], true, List, ℕ, length, Ok};
ghost use Rattle.nl_core.specs.Numbers.{AreBytes};
ghost use Rattle.nl_core.specs.Reading.{Gives, sized};
ghost use Rattle.nl_core.specs.Attribute.{is_checked};
ghost use Rattle.nl_core.specs.AttributeReadBack.{ReadsAgain};
ghost use Rattle.rt_other.specs.Message.{text, fits, message_at};
ghost use Rattle.rt_other.specs.Opaque.{IsInRange};
ghost use Rattle.rt_other.specs.OpaqueLaws.{opaque-again, opaque-read};

use nl_core::{
    DecodeError, DefaultNla, Emitable, Items, LONGEST_FRAME, Nla, NlaBuffer, NoMemory, Parseable,
    ParseableParametrized, TryClone, parse_attributes_with, put,
};
use std::alloc::Global;

// The length of the header of a frame, which stands before each message.
const FRAME_HEADER_LEN: usize = nl_core::HEADER_LEN;

/// What has a fixed count of bytes: a header, or a struct that is the value of an attribute.
pub trait Fixed: Emitable + Sized {
    ghost LEN: { ℕ };

    ghost read: { List ℕ → Self };

    ghost ReadsBack: { Self → Type 0 };

    /// The count of its bytes.
    const LEN: usize;

    /// What stands at the front of bytes; those after it are not looked at.
    fn at_front(bytes: &[u8]) -> Self
        requires { LEN ≤ length bytes.now }
        ensures { result ≡ read bytes.now };

    /// What stands at the front of a payload; `TooSmall` where it has fewer bytes.
    fn parse(payload: &[u8]) -> Result<Self, DecodeError>
        ensures { result ≡ sized LEN payload.now (read payload.now) }
    {
        if payload.len() < Self::LEN {
            return Err(DecodeError::TooSmall {
                have: payload.len(),
                need: Self::LEN,
            });
        }
        Ok(Self::at_front(payload))
    }

    ghost is_short: { LEN < 65536 };

    ghost always_fits: { (x : Self) → Self.fitting x ≡ true };

    ghost text_length: { (x : Self) → length (Self.text x) ≡ LEN };

    ghost reads_back: { (x : Self) (more : List ℕ) → ReadsBack x → read (Self.text x ++ more) ≡ x };

    ghost read_reads_back: { (bytes : List ℕ) → AreBytes bytes → ReadsBack (read bytes) };
}

/// A header, which stands before the attributes of a message.
pub trait Header: Fixed + Clone + Default {
    /// What the attributes after the header are read by: the address family of the header, or
    /// nothing.
    type Param: Copy;

    ghost zeros: { Self };

    ghost by: { Self → Self.Param };

    /// What the attributes after it are read by.
    fn param(&self) -> Self::Param
        ensures { result ≡ by self.now };

    ghost default_is_zeros: { (h : Self) → Self.is_default h → h ≡ zeros };

    ghost clone_is_same: { (h g : Self) → Self.is_clone h g → g ≡ h };
}

/// An attribute of a message, which is read by a parameter, and of which it is said which values
/// read back.
pub trait Attribute<'a, P>: Nla + ParseableParametrized<NlaBuffer<'a>, P> {
    ghost ReadsBack: { P → Self → Type 0 };

    ghost reads_back: { (p : P) (x : Self) → ReadsBack p x → length (Self.value_text x) ≤ 65531
        → ReadsAgain Self.kind_as_written Self.value_text (Self.reads p) x };

    ghost read_reads_back: { (p : P) (bytes : List ℕ) (x : Self) → AreBytes bytes → is_checked bytes ≡ true
        → Self.reads p bytes ≡ Ok x → ReadsBack p x };
}

impl<'a> Attribute<'a, ()> for DefaultNla {
    ghost ReadsBack = { λ _ n. IsInRange n };

    ghost reads_back = { opaque-again };

    ghost read_reads_back = { opaque-read };
}

/// A header and the attributes after it.
#[derive(Debug, PartialEq, Eq, Drop)]
pub struct Message<H, A> {
    /// The header.
    pub header: H,
    /// The attributes, in the order of their bytes.
    pub attributes: Items<A>,
}

impl<H: Header, A> Message<H, A> {
    /// A message with a header of zeros and no attributes.
    pub fn empty(alloc: Global) -> Self
        ensures { result ≡ record { header = H.zeros; attributes = [] } }
    {
        Message {
            header: H::default(),
            attributes: Items::new(alloc),
        }
    }
}

impl<H: Header, A: Drop> Message<H, A> {
    /// The message of a payload: `TooSmall` where the header is cut short, else the first fault of
    /// its attributes from the left.
    pub fn parse<'a>(alloc: Global, payload: &'a [u8]) -> Result<Self, DecodeError>
    where
        A: ParseableParametrized<NlaBuffer<'a>, H::Param>,
        ensures { Gives result (message_at H.LEN H.read (λ h. A.reads (H.by h)) payload.now) }
    {
        let header = H::parse(payload)?;
        let attributes = parse_attributes_with(alloc, &payload[H::LEN..], header.param())?;
        Ok(Message { header, attributes })
    }
}

impl<'a, H: Header, A: ParseableParametrized<NlaBuffer<'a>, H::Param> + Drop> Parseable<&'a [u8]>
    for Message<H, A> {
    ghost reads = { λ bytes. message_at H.LEN H.read (λ h. A.reads (H.by h)) bytes.now };

    fn parse(alloc: Global, buf: &&'a [u8]) -> Result<Self, DecodeError> {
        Message::parse(alloc, *buf)
    }
}

impl<H: Header, A: Nla> Emitable for Message<H, A> {
    ghost text = { text H.text A.kind_as_written A.value_text };

    ghost fitting = { fits H.text A.kind_as_written A.value_text };

    fn fits(&self) -> bool {
        let attributes = self.attributes.as_slice();
        attributes.fits() && FRAME_HEADER_LEN + H::LEN + attributes.buffer_len() <= LONGEST_FRAME
    }

    fn buffer_len(&self) -> usize {
        H::LEN + self.attributes.as_slice().buffer_len()
    }

    fn emit(&self, buf: &mut [u8]) {
        self.header.emit(buf);
        put(&self.attributes.as_slice(), buf, H::LEN);
    }
}

impl<H: Header, A: TryClone + Drop> TryClone for Message<H, A> {
    fn clone_with(&self) -> Result<Self, NoMemory> {
        let attributes = self.attributes.clone_with()?;
        Ok(Message {
            header: self.header.clone()?,
            attributes,
        })
    }
}
