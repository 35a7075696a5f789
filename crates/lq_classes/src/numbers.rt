//! The numbers of classes, by first variable.

ghost use Rattle.std.specs.Prelude.{◌≡◌, ◌≢◌, ℕ, ◌+◌, ◌^◌, ◌<◌, ◌≤◌, IfOk, length, slice_index, slice_set};
ghost use Rattle.lq_classes.specs.Numbers.{AreNumbers};

use std::alloc::{AllocError, Global};

/// The number of the class with this label: the one that it has, or the next.
fn number(seen: &mut Vec<u32>, label: usize, count: &mut u32) -> u32
    requires within { label < length seen.old.items }
    requires room { count.old + 1 < 2 ^ 32 }
    ensures met { slice_index seen.old.items label ≢ 0 → (result ≡ slice_index seen.old.items label) × (seen.new.items ≡ seen.old.items) × (count.new ≡ count.old) }
    ensures next { slice_index seen.old.items label ≡ 0 → (result ≡ count.old + 1) × (seen.new.items ≡ slice_set seen.old.items label result) × (count.new ≡ result) }
{
    if seen[label] == 0 {
        *count += 1;
        seen[label] = *count;
    }
    seen[label]
}

/// The number of the class of each pointer, and 0 of what is none, where those of one class have the same label.
pub(crate) fn numbers_of(
    alloc: Global,
    pointers: &[bool],
    labels: &[usize],
) -> Result<Vec<u32>, AllocError>
    requires few { length pointers.now < 2 ^ 32 }
    requires size { length pointers.now ≤ length labels.now }
    requires within { (i : ℕ) → slice_index labels.now i ≤ i }
    ensures { IfOk result (λ numbers. AreNumbers pointers.now labels.now numbers.items) }
{
    let mut seen = vec![in alloc; 0_u32; labels.len()]?;
    let mut count = 0_u32;
    let mut numbers = Vec::new(alloc);
    for (at, is_pointer) in pointers.iter().enumerate() {
        if *is_pointer {
            numbers.push(number(&mut seen, labels[at], &mut count))?;
        } else {
            numbers.push(0)?;
        }
    }
    Ok(numbers)
}
