//! Where the blocks of a run stand among numbered cells.

ghost use Rattle.std.specs.Prelude.{◌≡◌, ◌≢◌, ℕ, ◌<◌, ◌≤◌, ◌^◌, pos, [], ◌∷◌, ◌++◌, All, OnOk, OnErr, IfSome, IfNone};
ghost use Rattle.lq_meaning.specs.Blocks.{span, end, Below, Apart, HasRoom, Laid, holds, cell_in, cell_of};

use std::alloc::{AllocError, Global};
use std::marker::Model;

/// Where a block stands: its words have the cells from the first on, in order of element and field.
#[derive(Clone, Copy, Debug, PartialEq)]
pub struct Span {
    pub first: u32,
    /// How many fields an element has.
    pub fields: u32,
    /// How many elements the block has.
    pub length: u32,
}

impl Span {
    ghost use Rattle.std.specs.Prelude.{length, slice_range};

    /// The words of the block among all words.
    pub(crate) fn words_in(self, words: &[i64]) -> &[i64]
        requires { Below (length words.now) self }
        ensures { result.now ≡ slice_range words.now self.first (end self) }
    {
        let first = self.first as usize;
        let end = first + self.length as usize * self.fields as usize;
        match words.get(first..end) {
            Some(own) => own,
            None => &[],
        }
    }
}

/// Where the blocks of a run stand; they are numbered from 1.
#[derive(Drop)]
pub struct Blocks {
    spans: Vec<Span>,
}

impl Model for Blocks {
    ghost use Rattle.std.specs.Prelude.{List};
    ghost use Rattle.lq_meaning.specs.declared.blocks.Span.{Span};

    ghost Value = { List Span };

    ghost view = { λ b. b.spans.items };

    ghost use Rattle.lq_meaning.specs.Blocks.{Laid};

    ghost invariant = { λ b. Laid b.spans.items };
}

impl Blocks {
    /// No block.
    pub fn new(alloc: Global) -> Blocks
        ensures { result ≡ [] }
    {
        Blocks {
            spans: Vec::new(alloc),
        }
    }

    /// Adds a block, whose cells are free. A refusal changes nothing.
    pub fn add(&mut self, first: u32, fields: u32, length: u32) -> Result<(), AllocError>
        requires fields { 1 ≤ fields }
        requires below { Below (2 ^ 32) (span first fields length) }
        requires free { All (Apart (span first fields length)) self.old }
        requires room { HasRoom self.old }
        ensures ok { OnOk result (self.new ≡ self.old ++ span first fields length ∷ []) }
        ensures err { OnErr result (self.new ≡ self.old) }
    {
        self.spans.push(Span {
            first,
            fields,
            length,
        })?;
        Ok(())
    }

    /// The cell of an address, where it lies in its block.
    pub fn cell(&self, block: u32, element: i128, field: u32) -> Option<u32>
        ensures laid { Laid self.now }
        ensures value { result ≡ cell_of self.now block element field }
    {
        let span = self.spans.get((block as usize).checked_sub(1)?)?;
        let element = number_of(element)?;
        if element < span.length && field < span.fields {
            Some(span.first + element * span.fields + field)
        } else {
            None
        }
    }

    /// The blocks in order.
    pub(crate) fn spans(&self) -> &[Span]
        ensures same { result.now ≡ self.now }
        ensures laid { Laid self.now }
    {
        self.spans.as_slice()
    }
}

// The number of an element, where an element may have it.
fn number_of(element: i128) -> Option<u32>
    ensures some { IfSome result (λ number. element ≡ pos number) }
    ensures none { IfNone result ((number : ℕ) → number < 2 ^ 32 → element ≢ pos number) }
{
    u32::try_from(element).ok()
}
