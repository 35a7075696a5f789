//! Going over a list.

ghost use Rattle.std.specs.Prelude.{◌≡◌, drop};
ghost use Rattle.std.specs.Iterator.{YieldsFirstRef, item_count};
ghost use Rattle.lq_chain.specs.Walk.{walk_rest};

use crate::chain::Chain;

/// The elements of a list that are still to come.
#[derive(Drop)]
pub struct Walk<'a, T> {
    chain: &'a Chain<T>,
    at: usize,
}

impl<'a, T> Walk<'a, T> {
    pub(crate) fn new(chain: &'a Chain<T>) -> Walk<'a, T>
        ensures { walk_rest result ≡ chain.now }
    {
        Walk { chain, at: 0 }
    }
}

impl<'a, T> Iterator for Walk<'a, T> {
    type Item = &'a T;

    ghost next_gives = { YieldsFirstRef walk_rest };

    ghost remaining = { item_count walk_rest };

    fn next(&mut self) -> Option<&'a T> {
        let element = self.chain.get(self.at)?;
        self.at += 1;
        Some(element)
    }
}
