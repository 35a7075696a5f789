//! The path of a line by the nodes above it (docs/LANGUAGE.md, "Races").

ghost use Rattle.std.specs.Prelude.{◌≡◌, ℕ, List, slice_get, IfOk, [], ◌++◌, ◌∷◌};
ghost use Rattle.lq_machine.specs.Paths.{onto, fork_seat};
ghost use Rattle.lq_machine.specs.Around.{branches_in, FitsAround, Crumb, way_of};

use super::{Forest, Kind, Seat};
use std::alloc::AllocError;

impl<'a> Forest<'a> {
    /// The path of a line below the nodes of a way: how many forks were passed before each fork on the way and at the line,
    /// and between them the numbers of the branches.
    pub fn path(&self, seat: Seat, way: &[usize]) -> Result<Vec<u64>, AllocError>
        ensures { IfOk result (λ path. (most : ℕ) (crumbs : List Crumb) → FitsAround self.now.nodes.items most crumbs seat.node → way.now ≡ way_of crumbs
            → path.items ≡ branches_in crumbs seat.number ++ seat.passed ∷ []) }
    {
        let mut path = Vec::new(self.alloc);
        for node in way {
            if let Some(fork) = self.fork_at(*node) {
                go_down(&mut path, fork)?;
            }
        }
        go_down(&mut path, seat)?;
        Ok(path)
    }

    // The fork at a node, if there is one.
    fn fork_at(&self, node: usize) -> Option<Seat>
        ensures { result ≡ fork_seat node (slice_get self.now.nodes.items node) }
    {
        let found = self.nodes.get(node)?;
        match &found.kind {
            Kind::Fork(..) => Some(Seat {
                node,
                number: found.number,
                passed: found.passed,
            }),
            _ => None,
        }
    }
}

// Goes down one fork more, or to a line: to the branch with this number, where so many forks were passed.
fn go_down(path: &mut Vec<u64>, seat: Seat) -> Result<(), AllocError>
    ensures { IfOk result (λ _. path.new.items ≡ onto path.old.items seat) }
{
    if !path.is_empty() {
        path.push(seat.number)?;
    }
    path.push(seat.passed)?;
    Ok(())
}
