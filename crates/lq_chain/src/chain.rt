//! The list.

ghost use Rattle.std.specs.Prelude.{◌≡◌, ◌<◌, ◌^◌, [], ◌∷◌, ◌++◌, length, slice_get, IfOk, OnOk, OnErr, OnSome};
ghost use Rattle.std.specs.Option.{option_copied};
ghost use Rattle.lq_chain.specs.Pieces.{joined, ArePieces};
ghost use Rattle.lq_chain.specs.Walk.{walk_rest};

use crate::shared::{Shared, copy_all};
use crate::walk::Walk;
use sqlite_items::Items;
use std::alloc::{AllocError, Global};
use std::marker::Model;

// How many elements a piece has.
const PIECE: usize = 256;

// How many pieces there may be.
const MOST_PIECES: usize = 4_294_967_296;

/// A list that is copied without its elements: a copy and what it was copied from have their whole
/// pieces in common. Contracts see the list of the elements.
#[derive(Drop)]
pub struct Chain<T> {
    alloc: Global,
    // Whole pieces.
    pieces: Items<Shared<Items<Shared<T>>>>,
    // What stands behind them.
    last: Items<Shared<T>>,
}

impl<T> Model for Chain<T> {
    ghost use Rattle.std.specs.Prelude.{List, ◌++◌};
    ghost use Rattle.std.specs.Coded.{coded_list};
    ghost use Rattle.lq_chain.specs.Pieces.{joined, ArePieces};

    ghost Value = { List T };

    ghost coded = { coded_list T.code };

    ghost view = { λ c. joined c.pieces ++ c.last };

    ghost invariant = { λ c. ArePieces c.pieces c.last };
}

impl<T> Chain<T> {
    /// The empty list.
    pub fn new(alloc: Global) -> Chain<T>
        ensures { result ≡ [] }
    {
        Chain {
            alloc,
            pieces: Items::new(alloc),
            last: Items::new(alloc),
        }
    }

    /// How many elements the list has.
    pub fn len(&self) -> usize
        ensures { result ≡ length self.now }
    {
        self.pieces.len() * PIECE + self.last.len()
    }

    /// The element with this number, from 0.
    pub fn get(&self, at: usize) -> Option<&T>
        ensures value { option_copied result ≡ slice_get self.now at }
        ensures within { OnSome result (at < length self.now) }
        ensures few { length self.now < 2 ^ 41 }
    {
        match self.pieces.get(at / PIECE) {
            Some(piece) => element_at(piece.get().as_slice(), at % PIECE),
            None => element_at(self.last.as_slice(), at - self.pieces.len() * PIECE),
        }
    }

    /// The elements in their order.
    pub fn iter(&self) -> Walk<'_, T>
        ensures { walk_rest result ≡ self.now }
    {
        Walk::new(self)
    }
}

impl<T: Drop> Chain<T> {
    /// Puts an element at the end. Where there is no memory for it, or the list has 2^40 elements,
    /// the list stays as it is.
    pub fn push(&mut self, element: T) -> Result<(), AllocError>
        ensures ok { OnOk result (self.new ≡ self.old ++ element ∷ []) }
        ensures err { OnErr result (self.new ≡ self.old) }
    {
        let element = Shared::new(self.alloc, element)?;
        make_room(self.alloc, &mut self.pieces, &mut self.last)?;
        self.last.push(element)
    }

    /// The same list once more.
    pub fn copy(&self) -> Result<Chain<T>, AllocError>
        ensures { IfOk result (λ copy. copy ≡ self.now) }
    {
        Ok(Chain {
            alloc: self.alloc,
            pieces: copy_all(self.alloc, self.pieces.as_slice())?,
            last: copy_all(self.alloc, self.last.as_slice())?,
        })
    }
}

// The element with this number, from 0.
fn element_at<T>(list: &[Shared<T>], at: usize) -> Option<&T>
    ensures { option_copied result ≡ slice_get list.now at }
{
    match list.get(at) {
        Some(element) => Some(element.get()),
        None => None,
    }
}

// Makes a piece of what stands behind the pieces, where it is as long as one.
fn make_room<T: Drop>(
    alloc: Global,
    pieces: &mut Items<Shared<Items<Shared<T>>>>,
    last: &mut Items<Shared<T>>,
) -> Result<(), AllocError>
    requires { ArePieces pieces.old last.old }
    ensures same { joined pieces.new ++ last.new ≡ joined pieces.old ++ last.old }
    ensures pieces { ArePieces pieces.new last.new }
    ensures room { OnOk result (length last.new < 256) }
{
    if last.len() < PIECE {
        return Ok(());
    }
    if pieces.len() == MOST_PIECES {
        return Err(AllocError);
    }
    let piece = copy_all(alloc, last.as_slice())?;
    pieces.push(Shared::new(alloc, piece)?)?;
    *last = Items::new(alloc);
    Ok(())
}
