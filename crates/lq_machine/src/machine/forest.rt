//! The forks of a task and the lines of execution below them, in one list.

ghost use Rattle.std.specs.Prelude.{◌≡◌, ℕ, ◌<◌, length, slice_get, slice_set, Some, None, IfOk, [], ◌++◌, ◌∷◌};
ghost use Rattle.lq_machine.specs.declared.machine.forest.Kind.TheVariants.{Over};
ghost use Rattle.lq_machine.specs.declared.machine.forest.Node.{Node};
ghost use Rattle.lq_machine.specs.Forest.{over, counts_at, counts_over, counts_above, counts_both, counts_standing};
ghost use Rattle.lq_machine.specs.Around.{HasTree};

use lq_meaning::{Line, Standing};
use lq_tree::{Place, TrapKind};
use std::alloc::{AllocError, Global};
use std::mem;

mod path;
mod settling;
mod way;

/// The trap that a task ended by.
#[derive(Clone, Copy)]
pub struct Caught {
    pub kind: TrapKind,
    pub at: Place,
}

/// What is told of the tasks of a node.
#[derive(Clone, Copy)]
pub struct Counts {
    /// How many of their leaves are runnable.
    pub runnable: u64,
    /// Whether all have ended.
    pub ended: bool,
    /// The trap of the first that trapped.
    pub trap: Option<Caught>,
}

/// The tasks that a node stands for.
#[derive(Drop)]
pub enum Kind<'a> {
    /// A task that has ended, by a trap or not.
    Over(Option<Caught>),
    /// A line of execution.
    Leaf(Line<'a>),
    /// The line behind a fork, and the node of the children.
    Fork(Line<'a>, usize),
    /// The tasks of one node, and then those of another.
    Pair(usize, usize),
}

/// A node: the tasks for which it stands, and what is told of them.
#[derive(Drop)]
pub struct Node<'a> {
    pub kind: Kind<'a>,
    /// The number of the task among the children of its fork.
    pub number: u64,
    /// How many forks its line has passed.
    pub passed: u64,
    pub counts: Counts,
}

/// Where a task stands: its node, its number among the children of its fork, and how many forks its line has passed.
#[derive(Clone, Copy)]
pub struct Seat {
    pub node: usize,
    pub number: u64,
    pub passed: u64,
}

/// The nodes of a task, of which the first is the root.
#[derive(Drop)]
pub struct Forest<'a> {
    pub alloc: Global,
    pub nodes: Vec<Node<'a>>,
}

/// So many forks may begin at once, each in a branch of the one before.
pub const DEEPEST: u32 = 1000;

// What is told of no task.
const NOTHING: Counts = Counts {
    runnable: 0,
    ended: true,
    trap: None,
};

// What is told of a task that has ended.
fn counts_over(trap: Option<Caught>) -> Counts
    ensures { result ≡ counts_over trap }
{
    Counts {
        runnable: 0,
        ended: true,
        trap,
    }
}

// What is told of a line by where it stands.
fn counts_standing(standing: Standing) -> Counts
    ensures { result ≡ counts_standing standing }
{
    Counts {
        runnable: u64::from(matches!(standing, Standing::Due { .. })),
        ended: false,
        trap: None,
    }
}

// What is told of a fork whose children haven't all ended.
fn counts_above(counts: Counts) -> Counts
    ensures { result ≡ counts_above counts }
{
    Counts {
        runnable: counts.runnable,
        ended: false,
        trap: None,
    }
}

// What is told of two lists of tasks.
fn counts_both(left: Counts, right: Counts) -> Result<Counts, AllocError>
    ensures { IfOk result (λ counts. counts ≡ counts_both left right) }
{
    let runnable = left.runnable.checked_add(right.runnable).ok_or(AllocError)?;
    Ok(Counts {
        runnable,
        ended: left.ended && right.ended,
        trap: left.trap.or(right.trap),
    })
}

impl<'a> Forest<'a> {
    /// A forest of one task, which has ended.
    pub fn new(alloc: Global) -> Result<Forest<'a>, AllocError>
        ensures { IfOk result (λ forest. length forest.nodes.items ≡ 1) }
    {
        let mut forest = Forest {
            alloc,
            nodes: Vec::new(alloc),
        };
        forest.add()?;
        Ok(forest)
    }

    /// Puts a task into a node that has ended, by a trap or not.
    pub fn end(&mut self, seat: Seat, trap: Option<Caught>)
        requires { seat.node < length self.old.nodes.items }
        ensures { (most : ℕ) → HasTree self.new.nodes.items most seat.node (over seat.node seat.number seat.passed trap) }
    {
        self.put(seat, Kind::Over(trap), counts_over(trap));
    }

    /// What is told of the tasks of a node.
    pub fn counts(&self, node: usize) -> Counts
        ensures { result ≡ counts_at self.now.nodes.items node }
    {
        match self.nodes.get(node) {
            Some(found) => found.counts,
            None => NOTHING,
        }
    }

    /// How many leaves are runnable.
    pub fn runnable(&self) -> u64
        ensures { result ≡ (counts_at self.now.nodes.items 0).runnable }
    {
        self.counts(0).runnable
    }

    // Puts another node in place of one.
    fn put(&mut self, seat: Seat, kind: Kind<'a>, counts: Counts)
        requires { seat.node < length self.old.nodes.items }
        ensures { self.new.nodes.items ≡ slice_set self.old.nodes.items seat.node (record { kind = kind.entry; number = seat.number; passed = seat.passed; counts = counts }) }
    {
        self.nodes[seat.node] = Node {
            kind,
            number: seat.number,
            passed: seat.passed,
            counts,
        };
    }

    // Tells this of a node.
    fn tell(&mut self, node: usize, counts: Counts)
        requires { node < length self.old.nodes.items }
        ensures { (found : Node) → slice_get self.old.nodes.items node ≡ Some found → self.new.nodes.items ≡ slice_set self.old.nodes.items node (record found { counts = counts }) }
    {
        self.nodes[node].counts = counts;
    }

    // Adds a node, and gives its number.
    fn add(&mut self) -> Result<usize, AllocError>
        ensures added { IfOk result (λ node. (added : Node) × (self.new.nodes.items ≡ self.old.nodes.items ++ added ∷ [])) }
        ensures node { IfOk result (λ node. node ≡ length self.old.nodes.items) }
    {
        let node = self.nodes.len();
        self.nodes.push(Node {
            kind: Kind::Over(None),
            number: 0,
            passed: 0,
            counts: NOTHING,
        })?;
        Ok(node)
    }

    // Takes out what a node has, and leaves a task there that has ended.
    fn take(&mut self, node: usize) -> Result<(Seat, Kind<'a>), AllocError>
        ensures { IfOk result (λ taken. (found : Node) × (slice_get self.old.nodes.items node ≡ Some found) × (taken.0 ≡ record { node = node; number = found.number; passed = found.passed })
            × (taken.1 ≡ found.kind) × (self.new.nodes.items ≡ slice_set self.old.nodes.items node (record found { kind = Over None }))) }
    {
        if node >= self.nodes.len() {
            return Err(AllocError);
        }
        let seat = Seat {
            node,
            number: self.nodes[node].number,
            passed: self.nodes[node].passed,
        };
        let kind = mem::replace(&mut self.nodes[node].kind, Kind::Over(None));
        Ok((seat, kind))
    }
}
