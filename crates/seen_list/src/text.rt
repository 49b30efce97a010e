//! A text that grows at its end.

ghost use Rattle.std.specs.Prelude.{◌≡◌, ◌↔◌, [], ◌++◌, decimal, length, OnErr, OnOk, IfOk, IsTrue};

use crate::Memory;
use crate::list::bare;
use itoa::Buffer;
use std::alloc::Global;
use std::marker::Model;

/// Bytes in order, of any values. A contract sees it as the list of its bytes.
#[derive(Drop)]
pub struct Text {
    inner: Vec<u8>,
}

impl Model for Text {
    ghost use Rattle.std.specs.Prelude.{ℕ, List as Items};

    ghost Value = { Items ℕ };

    ghost view = { λ t. t.inner.items };
}

impl Text {
    /// The empty text. It takes no memory, and keeps `alloc` for its growth.
    pub fn new(alloc: Global) -> Text
        ensures { result ≡ [] }
    {
        Text { inner: bare(alloc) }
    }

    /// A text of the bytes of a slice.
    pub fn from_bytes(alloc: Global, bytes: &[u8]) -> Result<Text, Memory>
        ensures { IfOk result (λ text. text ≡ bytes.now) }
    {
        let inner = Vec::from_slice(alloc, bytes)?;
        Ok(Text { inner })
    }

    /// The number of bytes.
    pub fn len(&self) -> usize
        ensures { result ≡ length self.now }
    {
        self.inner.len()
    }

    /// Whether there are no bytes.
    pub fn is_empty(&self) -> bool
        ensures { IsTrue result ↔ (self.now ≡ []) }
    {
        self.inner.is_empty()
    }

    /// The bytes in order.
    pub fn as_bytes(&self) -> &[u8]
        ensures { result.now ≡ self.now }
    {
        self.inner.as_slice()
    }

    /// Adds the whole piece at the end, or, refused, nothing of it.
    pub fn push_bytes(&mut self, piece: &[u8]) -> Result<(), Memory>
        ensures ok { OnOk result (self.new ≡ self.old ++ piece.now) }
        ensures err { OnErr result (self.new ≡ self.old) }
    {
        self.inner.extend_from_slice(piece)?;
        Ok(())
    }

    /// Adds a number in decimal digits at the end, without leading zeros, or, refused, nothing of it.
    pub fn push_decimal(&mut self, number: u64) -> Result<(), Memory>
        ensures ok { OnOk result (self.new ≡ self.old ++ decimal number) }
        ensures err { OnErr result (self.new ≡ self.old) }
    {
        self.push_bytes(Buffer::new().format(number).as_bytes())
    }
}
