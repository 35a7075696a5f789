//! The way down to a runnable leaf, and up again.

ghost use Rattle.std.specs.Prelude.{◌≡◌, ℕ, ◌+◌, ◌<◌, ◌≤◌, List, length, slice_get, Some, IfOk, IfSome};
ghost use Rattle.lq_machine.specs.declared.machine.forest.Node.{Node};
ghost use Rattle.lq_meaning.specs.declared.line.Standing.TheVariants.{Fork as IsFork};
ghost use Rattle.lq_meaning.specs.Line.{standing_of, IsBelow};
ghost use Rattle.lq_machine.specs.Forest.{Tree, root, uses, counts_of, IsTold, Fits, IsTree};
ghost use Rattle.lq_machine.specs.Around.{Crumb, under, crumb_node, way_of, uses_beside, FitsCrumb, GoesDown, IsFound, Changes, HasTree, IsAnew, HasAround, Rises, IsVacant, IsPlucked, Returns};

use super::{Counts, DEEPEST, Forest, Kind, Seat, counts_above, counts_both};
use lq_meaning::Line;
use lq_tree::PProgram;
use std::alloc::AllocError;

impl<'a> Forest<'a> {
    // The node below a node towards the runnable leaf with this number, and the number that the leaf has there.
    fn below(&self, node: usize, rest: u64) -> Option<(usize, u64)>
        ensures { (most : ℕ) (tree : Tree) → Fits self.now.nodes.items most tree → root tree ≡ node → rest < (counts_of tree).runnable
            → GoesDown self.now.nodes.items most tree rest result }
    {
        match &self.nodes.get(node)?.kind {
            Kind::Pair(left, right) => {
                let first = self.counts(*left).runnable;
                if rest < first {
                    Some((*left, rest))
                } else {
                    Some((*right, rest - first))
                }
            }
            Kind::Fork(_, children) => Some((*children, rest)),
            Kind::Leaf(_) | Kind::Over(_) => None,
        }
    }

    /// The node of the runnable leaf with this number. The way becomes the nodes above it, from the root on.
    pub fn find(&self, pick: u64, way: &mut Vec<usize>) -> Result<usize, AllocError>
        ensures { IfOk result (λ leaf. (most : ℕ) (tree : Tree) → IsTree self.now.nodes.items most tree → pick < (counts_of tree).runnable
            → IsFound self.now.nodes.items most tree pick leaf way.new.items) }
    {
        way.clear();
        let mut node = 0;
        let mut rest = pick;
        for _ in 0..u64::MAX {
            let Some((child, less)) = self.below(node, rest) else {
                return Ok(node);
            };
            way.push(node)?;
            node = child;
            rest = less;
        }
        Err(AllocError)
    }

    /// Takes out the line of the runnable leaf with this number. The way becomes the nodes above it, from the root on.
    pub fn pluck(&mut self, pick: u64, way: &mut Vec<usize>) -> Result<(Seat, Line<'a>), AllocError>
        ensures within { IfOk result (λ plucked. plucked.0.node < length self.new.nodes.items) }
        ensures line { IfOk result (λ plucked. (most : ℕ) (tree : Tree) → IsTree self.old.nodes.items most tree → pick < (counts_of tree).runnable
            → IsPlucked self.new.nodes.items most tree pick plucked.0 plucked.1 way.new.items) }
    {
        let leaf = self.find(pick, way)?;
        let (seat, kind) = self.take(leaf)?;
        match kind {
            Kind::Leaf(line) => Ok((seat, line)),
            Kind::Over(_) | Kind::Fork(..) | Kind::Pair(..) => Err(AllocError),
        }
    }

    // What is told of a pair, or of a fork whose children haven't all ended, by what is told of the nodes below it.
    fn told_above(&self, node: usize) -> Result<Option<Counts>, AllocError>
        ensures { IfOk result (λ told. IfSome told (λ counts. (found : Node) × (slice_get self.now.nodes.items node ≡ Some found) × IsTold self.now.nodes.items found.kind counts)) }
    {
        let Some(found) = self.nodes.get(node) else {
            return Ok(None);
        };
        match &found.kind {
            Kind::Pair(left, right) => {
                let counts = counts_both(self.counts(*left), self.counts(*right))?;
                Ok(Some(counts))
            }
            Kind::Fork(_, children) => {
                let counts = self.counts(*children);
                if counts.ended {
                    return Ok(None);
                }
                Ok(Some(counts_above(counts)))
            }
            Kind::Leaf(_) | Kind::Over(_) => Ok(None),
        }
    }

    // Makes a node anew, by what is told of the nodes below it. A fork whose children have all ended is passed.
    fn make_anew(&mut self, p: &'a PProgram, node: usize) -> Result<(), AllocError>
        ensures changes { IfOk result (λ _. Changes self.old.nodes.items self.new.nodes.items node) }
        ensures anew { IfOk result (λ _. (most : ℕ) (crumb : Crumb) (below : Tree) → crumb_node crumb ≡ node → FitsCrumb self.old.nodes.items most crumb (root below)
            → Fits self.old.nodes.items most below → ((k : ℕ) → uses_beside k crumb + uses k below ≤ 1) → IsAnew p.now most self.old.nodes.items self.new.nodes.items crumb below) }
    {
        if let Some(counts) = self.told_above(node)? {
            self.tell(node, counts);
            return Ok(());
        }
        let (seat, kind) = self.take(node)?;
        match kind {
            Kind::Fork(line, children) => self.leave(p, seat, line, children),
            Kind::Pair(..) | Kind::Leaf(_) | Kind::Over(_) => Err(AllocError),
        }
    }

    // Puts the fork of a line into a node, above its children; or the line goes on behind them where they have all ended.
    fn leave(
        &mut self,
        p: &'a PProgram,
        seat: Seat,
        line: Line<'a>,
        children: usize,
    ) -> Result<(), AllocError>
        requires { seat.node < length self.old.nodes.items }
        ensures changes { IfOk result (λ _. Changes self.old.nodes.items self.new.nodes.items seat.node) }
        ensures anew { IfOk result (λ _. (most : ℕ) (below : Tree) → standing_of line.entry ≡ IsFork → IsBelow most line.entry
            → HasTree self.old.nodes.items most children below → uses seat.node below ≡ 0
            → IsAnew p.now most self.old.nodes.items self.new.nodes.items (under seat.node seat.number seat.passed line.entry) below) }
    {
        let Some(after) = self.close(p, seat, line, children)? else {
            return Ok(());
        };
        if seat.passed == u64::MAX {
            return Err(AllocError);
        }
        let next = Seat {
            node: seat.node,
            number: seat.number,
            passed: seat.passed + 1,
        };
        self.settle(p, next, after, DEEPEST)
    }

    /// Makes the nodes of a way anew, from the last one up to the root.
    pub fn rise(&mut self, p: &'a PProgram, way: &mut Vec<usize>) -> Result<(), AllocError>
        ensures { IfOk result (λ _. (most : ℕ) (crumbs : List Crumb) (below : Tree) → way.old.items ≡ way_of crumbs → HasAround self.old.nodes.items most crumbs below
            → Rises p.now most self.new.nodes.items crumbs below) }
    {
        while let Some(node) = way.pop() {
            self.make_anew(p, node)?;
        }
        Ok(())
    }

    /// Puts back a line, below the nodes of a way.
    pub fn put_back(
        &mut self,
        p: &'a PProgram,
        seat: Seat,
        line: Line<'a>,
        way: &mut Vec<usize>,
    ) -> Result<(), AllocError>
        requires { seat.node < length self.old.nodes.items }
        ensures { IfOk result (λ _. (most : ℕ) (crumbs : List Crumb) → way.old.items ≡ way_of crumbs → IsVacant self.old.nodes.items most crumbs seat.node → IsBelow most line.entry
            → Returns p.now most self.new.nodes.items crumbs seat line.entry) }
    {
        self.settle(p, seat, line, DEEPEST)?;
        self.rise(p, way)
    }
}
