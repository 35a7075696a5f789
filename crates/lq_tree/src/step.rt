ghost use Rattle.std.specs.Prelude.{◌≡◌};
ghost use Rattle.lq_tree.specs.Step as spec;

// The greatest step of a `foreach`.
const MAX_STEP: i64 = 65_536;

/// Whether a `foreach` may have this step: from 1 to 65,536 (docs/LANGUAGE.md, "Name rules").
pub fn is_step(step: i64) -> bool
    ensures { result ≡ spec.is_step step }
{
    1 <= step && step <= MAX_STEP
}
