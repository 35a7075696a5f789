//! Sets of numbers. Each number leads to one that isn't greater, and the least of a set leads to itself.

ghost use Rattle.std.specs.Prelude.{◌≡◌, ℕ, ◌<◌, IfOk, length, slice_index};
ghost use Rattle.lq_classes.specs.Forest.{IsForest, Shortened, IsLeast, AreLabels};

use std::alloc::{AllocError, Global};

/// The least number of a set. What is passed on the way is led further on, so that later ways are short.
pub(crate) fn least_of(parents: &mut Vec<usize>, number: usize) -> usize
    requires forest { IsForest parents.old.items }
    requires within { number < length parents.old.items }
    ensures shortened { Shortened parents.old.items parents.new.items }
    ensures least { IsLeast parents.old.items parents.new.items number result }
{
    let mut at = number;
    'way: while parents[at] != at {
        let next = parents[parents[at]];
        parents[at] = next;
        at = next;
    }
    at
}

/// Sets of one number each.
pub(crate) fn apart(alloc: Global, count: usize) -> Result<Vec<usize>, AllocError>
    ensures size { IfOk result (λ parents. length parents.items ≡ count) }
    ensures apart { IfOk result (λ parents. (i : ℕ) → i < count → slice_index parents.items i ≡ i) }
{
    let mut parents = Vec::new(alloc);
    for number in 0..count {
        parents.push(number)?;
    }
    Ok(parents)
}

/// For each number the least of its set.
pub(crate) fn labels_of(alloc: Global, parents: &[usize]) -> Result<Vec<usize>, AllocError>
    requires { IsForest parents.now }
    ensures { IfOk result (λ labels. AreLabels parents.now labels.items) }
{
    let mut labels: Vec<usize> = Vec::new(alloc);
    for (number, parent) in parents.iter().enumerate() {
        let label = if *parent < number {
            labels[*parent]
        } else {
            number
        };
        labels.push(label)?;
    }
    Ok(labels)
}
