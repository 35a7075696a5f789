//! The rule of a deque.
use crate::dealing::Dealing;
use crate::view::View;
use crossbeam_deque::protocol::Protocol;
use std::marker::PhantomData;

/// Each chunk that was put into the deque stands in one place: in the deque, or in what one pass took.
pub struct Handed<D> {
    dealing: PhantomData<D>,
}

impl<T, D: Dealing<T>> Protocol<T, View> for Handed<D> {
    ghost use Rattle.lq_steal.specs.Handed.{IsHanded};
    ghost use Rattle.lq_steal.specs.View.{first_view, spent};

    ghost holds = { IsHanded D.number D.deques D.waiting };

    ghost first = { first_view };

    ghost guest = { spent };
}
