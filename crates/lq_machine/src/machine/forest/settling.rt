//! What a line comes to in a node: it stands there, or its branches come below it.

ghost use Rattle.std.specs.Prelude.{◌≡◌, ℕ, ◌+◌, ◌^◌, ◌<◌, length, IfOk};
ghost use Rattle.lq_tree.specs.declared.plain.PProgram.{PProgram};
ghost use Rattle.lq_meaning.specs.declared.line.Standing.TheVariants.{Fork as IsFork};
ghost use Rattle.lq_meaning.specs.Line.{standing_of, IsBelow};
ghost use Rattle.lq_machine.specs.Forest.{Tree, uses};
ghost use Rattle.lq_machine.specs.Around.{Changes, Keeps, HasTree, Settles, Opens, Grows, Closes};

use super::{Caught, Forest, Kind, Seat, counts_above, counts_both, counts_over, counts_standing};
use lq_meaning::{Line, Standing};
use lq_tree::PProgram;
use std::alloc::AllocError;

impl<'a> Forest<'a> {
    // Puts the fork of a line into a node, above its children. Where these have all ended, the node has ended by their trap,
    // or the line goes on behind them and is given back.
    pub(super) fn close(
        &mut self,
        p: &'a PProgram,
        seat: Seat,
        line: Line<'a>,
        children: usize,
    ) -> Result<Option<Line<'a>>, AllocError>
        requires { seat.node < length self.old.nodes.items }
        ensures changes { IfOk result (λ _. Changes self.old.nodes.items self.new.nodes.items seat.node) }
        ensures closes { IfOk result (λ after. (most : ℕ) (below : Tree) → standing_of line.entry ≡ IsFork → IsBelow most line.entry
            → HasTree self.old.nodes.items most children below → uses seat.node below ≡ 0
            → Closes p.now most self.old.nodes.items self.new.nodes.items seat.node seat.number seat.passed line.entry below after) }
    {
        let counts = self.counts(children);
        if !counts.ended {
            self.put(seat, Kind::Fork(line, children), counts_above(counts));
            return Ok(None);
        }
        if counts.trap.is_some() {
            self.put(seat, Kind::Over(counts.trap), counts_over(counts.trap));
            return Ok(None);
        }
        let mut line = line;
        line.pass_fork(p)?;
        Ok(Some(line))
    }

    // Puts a line into a node, in front of no fork.
    fn stand(&mut self, seat: Seat, line: Line<'a>)
        requires { seat.node < length self.old.nodes.items }
        ensures changes { Changes self.old.nodes.items self.new.nodes.items seat.node }
        ensures settles { (p : PProgram) (most : ℕ) → IsBelow most line.entry → (standing_of line.entry ≡ IsFork → ⊥)
            → Settles p most self.old.nodes.items self.new.nodes.items seat.node seat.number seat.passed line.entry }
    {
        match line.standing() {
            Standing::Done => self.put(seat, Kind::Over(None), counts_over(None)),
            Standing::Trapped { kind, at } => {
                let trap = Some(Caught { kind, at });
                self.put(seat, Kind::Over(trap), counts_over(trap));
            }
            standing => self.put(seat, Kind::Leaf(line), counts_standing(standing)),
        }
    }

    /// Puts a line into a node: where it stands in front of a fork, its branches come below it. A fork whose branches have
    /// all ended is passed at once. So many forks more may begin, each in a branch of the one before.
    #[cycle(settle)]
    pub fn settle(
        &mut self,
        p: &'a PProgram,
        seat: Seat,
        line: Line<'a>,
        depth: u32,
    ) -> Result<(), AllocError>
        requires { seat.node < length self.old.nodes.items }
        ensures changes { IfOk result (λ _. Changes self.old.nodes.items self.new.nodes.items seat.node) }
        ensures settles { IfOk result (λ _. (most : ℕ) → IsBelow most line.entry
            → Settles p.now most self.old.nodes.items self.new.nodes.items seat.node seat.number seat.passed line.entry) }
    {
        let mut line = line;
        let mut passed = seat.passed;
        for _ in 0..u64::MAX {
            let here = Seat {
                node: seat.node,
                number: seat.number,
                passed,
            };
            if !matches!(line.standing(), Standing::Fork) {
                self.stand(here, line);
                return Ok(());
            }
            let Some(after) = self.open(p, here, line, depth)? else {
                return Ok(());
            };
            line = after;
            if passed == u64::MAX {
                return Err(AllocError);
            }
            passed += 1;
        }
        Err(AllocError)
    }

    // Puts a line in front of a fork into a node, above its branches. Where these have all ended and none trapped, the line
    // is given back behind them.
    #[cycle(settle)]
    fn open(
        &mut self,
        p: &'a PProgram,
        seat: Seat,
        line: Line<'a>,
        depth: u32,
    ) -> Result<Option<Line<'a>>, AllocError>
        requires { seat.node < length self.old.nodes.items }
        ensures changes { IfOk result (λ _. Changes self.old.nodes.items self.new.nodes.items seat.node) }
        ensures opens { IfOk result (λ after. (most : ℕ) → standing_of line.entry ≡ IsFork → IsBelow most line.entry
            → Opens p.now most self.old.nodes.items self.new.nodes.items seat.node seat.number seat.passed line.entry after) }
    {
        let mut line = line;
        let count = line.fork_size();
        if count == 0 {
            line.pass_fork(p)?;
            return Ok(Some(line));
        }
        if depth == 0 {
            return Err(AllocError);
        }
        let children = self.grow(p, &line, 0, count, depth - 1)?;
        self.close(p, seat, line, children)
    }

    // Adds so many branches of the fork in front of which a line stands, from this number on, and gives their node.
    #[cycle(settle)]
    fn grow(
        &mut self,
        p: &'a PProgram,
        line: &Line<'a>,
        first: u64,
        count: u64,
        depth: u32,
    ) -> Result<usize, AllocError>
        requires some { 0 < count }
        requires fits { first + count < 2 ^ 64 }
        ensures keeps { IfOk result (λ _. Keeps self.old.nodes.items self.new.nodes.items) }
        ensures grows { IfOk result (λ node. (most : ℕ) → 0 < most → Grows p.now most self.old.nodes.items self.new.nodes.items line.now first count node) }
    {
        if count == 1 {
            return self.sprout(p, line, first, depth);
        }
        let half = count / 2;
        let node = self.add()?;
        let left = self.grow(p, line, first, half, depth)?;
        let right = self.grow(p, line, first + half, count - half, depth)?;
        let counts = counts_both(self.counts(left), self.counts(right))?;
        let seat = Seat {
            node,
            number: 0,
            passed: 0,
        };
        self.put(seat, Kind::Pair(left, right), counts);
        Ok(node)
    }

    // Adds the branch with this number of the fork in front of which a line stands, and gives its node.
    #[cycle(settle)]
    fn sprout(
        &mut self,
        p: &'a PProgram,
        line: &Line<'a>,
        number: u64,
        depth: u32,
    ) -> Result<usize, AllocError>
        ensures keeps { IfOk result (λ _. Keeps self.old.nodes.items self.new.nodes.items) }
        ensures grows { IfOk result (λ node. (most : ℕ) → 0 < most → Grows p.now most self.old.nodes.items self.new.nodes.items line.now number 1 node) }
    {
        let mut child = Line::new(self.alloc);
        line.child(p, number, &mut child)?;
        let node = self.add()?;
        let seat = Seat {
            node,
            number,
            passed: 0,
        };
        self.settle(p, seat, child, depth)?;
        Ok(node)
    }
}
