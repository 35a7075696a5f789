//! The parts of a pointer word (docs/LANGUAGE.md, "Pointer words").

ghost use Rattle.std.specs.Prelude.{◌≡◌};
ghost use Rattle.lq_meaning.specs.Entry as entry;
ghost use Rattle.lq_meaning.specs.Word as spec;

/// The block that a pointer word names; null names block 0, which is none.
pub fn block_of(pointer: i64) -> u32
    ensures { result ≡ spec.block_of pointer }
{
    if pointer < 0 {
        0
    } else {
        (pointer / (1 << 32)) as u32
    }
}

/// The offset that a pointer word names.
pub fn offset_of(pointer: i64) -> u32
    ensures { result ≡ spec.offset_of pointer }
{
    if pointer < 0 {
        0
    } else {
        (pointer % (1 << 32)) as u32
    }
}

/// The pointer to the input, which is the first block; null where it is empty.
pub fn input_pointer(input: &[i64]) -> i64
    ensures { result ≡ entry.input_pointer input.now }
{
    if input.is_empty() { 0 } else { 1 << 32 }
}
