/// What a runner on threads passes before each branch and each chunk of iterations that it starts
/// (docs/ARCHITECTURE.md, "Traits of the outside"). Passing changes nothing that a contract sees,
/// and returns.
pub trait Gate {
    /// `number` is the branch's number, or the ordinal of the chunk's first iteration, from 0.
    fn pass(&self, number: u64);
}

/// A gate that stands open.
#[derive(Clone, Copy, Debug, PartialEq, Eq)]
pub struct OpenGate;

impl Gate for OpenGate {
    fn pass(&self, _number: u64) {}
}
