//! A part of the units of a memory's cells.
use atomic_table::Seat;
use lq_rule::View;
use std::marker::Model;

/// Units of the cells of a memory, and the value of each cell of which it has a unit. It has no bytes.
#[derive(Drop)]
pub struct Part {
    pub(crate) seat: Seat<(), View>,
}

impl Model for Part {
    ghost use Rattle.lq_words.specs.Part.{Holding, holding_of, IsSettled};

    ghost Value = { Holding };

    ghost view = { λ p. holding_of p.seat.table_id p.seat.me };

    ghost invariant = { λ p. IsSettled p.seat.table_id p.seat.me };
}
