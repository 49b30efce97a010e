//! A list that grows at its end.

ghost use Rattle.std.specs.Prelude.{◌≡◌, ◌<◌, ◌↔◌, List as Items, [], ◌∷◌, ◌++◌, length, slice_set, OnErr, OnOk, IfOk, IsNone, IfSome, IsTrue, replicate, slice_get, option_copied};
ghost use Rattle.std.specs.{Slice.Iter.iter_rest, Vec.vec_capacity, Borrow.sem};
ghost use Rattle.seen_list.specs.Lending.{LendsMembers};

use crate::Memory;
use std::alloc::Global;
use std::marker::Model;
use std::slice;

/// A list of values in order. A contract sees it as the list of its values and nothing else.
#[derive(Drop)]
pub struct List<T> {
    inner: Vec<T>,
}

impl<T> Model for List<T> {
    ghost use Rattle.std.specs.Prelude.{List as Items};

    ghost Value = { Items T };

    ghost view = { λ l. l.inner.items };
}

/// A vector without values, and without room for any.
pub(crate) fn bare<T>(alloc: Global) -> Vec<T>
    ensures empty { result.items ≡ [] }
    ensures no_memory { vec_capacity result ≡ 0 }
{
    Vec::new(alloc)
}

impl<T> List<T> {
    /// The empty list. It takes no memory, and keeps `alloc` for its growth.
    pub fn new(alloc: Global) -> List<T>
        ensures { result ≡ [] }
    {
        List { inner: bare(alloc) }
    }

    /// The number of values.
    pub fn len(&self) -> usize
        ensures { result ≡ length self.now }
    {
        self.inner.len()
    }

    /// Whether there are no values.
    pub fn is_empty(&self) -> bool
        ensures { IsTrue result ↔ (self.now ≡ []) }
    {
        self.inner.is_empty()
    }

    /// The value in the place `i`, counted from 0. `None` exactly where there are no more than `i`.
    pub fn get(&self, i: usize) -> Option<&T>
        ensures { option_copied result ≡ slice_get self.now i }
    {
        self.inner.get(i)
    }

    /// The values in order.
    pub fn as_slice(&self) -> &[T]
        ensures { result.now ≡ self.now }
    {
        self.inner.as_slice()
    }

    /// The values in order, one after another.
    pub fn iter(&self) -> slice::Iter<'_, T>
        ensures { iter_rest result ≡ self.now }
    {
        self.inner.iter()
    }

    /// Lends the values, to be changed in their places. The length stays.
    pub fn as_mut_slice(&mut self) -> &mut [T]
        ensures* lends { sem 𝓛 (LendsMembers T.row self.entry result) }
        ensures value { result.now ≡ self.old }
    {
        self.inner.as_mut_slice()
    }

    /// Takes the last value out. `None` exactly where the list is empty.
    pub fn pop(&mut self) -> Option<T>
        ensures none { IsNone result ↔ (self.old ≡ []) }
        ensures empty { IsNone result → self.new ≡ [] }
        ensures last { IfSome result (λ x. self.old ≡ self.new ++ x ∷ []) }
    {
        self.inner.pop()
    }
}

impl<T: Drop> List<T> {
    /// Adds a value at the end. Refused, the list is as before, and `x` is let go.
    pub fn push(&mut self, x: T) -> Result<(), Memory>
        ensures ok { OnOk result (self.new ≡ self.old ++ x ∷ []) }
        ensures err { OnErr result (self.new ≡ self.old) }
    {
        self.inner.push(x)?;
        Ok(())
    }

    /// Puts a value in the place `i`, counted from 0, of the one that stood there.
    pub fn set(&mut self, i: usize, x: T)
        requires { i < length self.old }
        ensures { self.new ≡ slice_set self.old i x }
    {
        self.inner[i] = x;
    }
}

impl<T: Copy> List<T> {
    /// A list of the values of a slice.
    pub fn from_slice(alloc: Global, items: &[T]) -> Result<List<T>, Memory>
        ensures { IfOk result (λ list. list ≡ items.now) }
    {
        let inner = Vec::from_slice(alloc, items)?;
        Ok(List { inner })
    }

    /// A list of `count` values, all of them `x`.
    pub fn filled(alloc: Global, x: T, count: usize) -> Result<List<T>, Memory>
        ensures { IfOk result (λ list. list ≡ replicate count x) }
    {
        let mut inner = Vec::new(alloc);
        inner.resize(count, x)?;
        Ok(List { inner })
    }

    /// Adds all the values of a slice at the end, or, refused, none of them.
    pub fn extend_from_slice(&mut self, items: &[T]) -> Result<(), Memory>
        ensures ok { OnOk result (self.new ≡ self.old ++ items.now) }
        ensures err { OnErr result (self.new ≡ self.old) }
    {
        self.inner.extend_from_slice(items)?;
        Ok(())
    }

    /// A second list of the same values, on the same allocator.
    pub fn copy(&self) -> Result<List<T>, Memory>
        ensures { IfOk result (λ copied. copied ≡ self.now) }
    {
        List::from_slice(*self.inner.allocator(), self.as_slice())
    }
}

impl<'a, T> IntoIterator for &'a List<T> {
    type Item = &'a T;

    type IntoIter = slice::Iter<'a, T>;

    ghost into_iter_gives = { λ list it. iter_rest it ≡ list.now };

    fn into_iter(self) -> Self::IntoIter {
        self.iter()
    }
}
