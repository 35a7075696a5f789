//! What follows from the definitions alone: each law is the contract of a function that does nothing.

ghost use Rattle.std.specs.Prelude.{◌≡◌, ℕ, List, length};
ghost use Rattle.lq_tree.specs.declared.plain.PProgram.{PProgram};
ghost use Rattle.lq_code.specs.declared.code.Code.{Code};
ghost use Rattle.lq_code.specs.Compiled.{compiled};
ghost use Rattle.lq_code.specs.Spelled.{Spells};
ghost use Rattle.lq_code.specs.Valid.{IsValid, IsFirstBroken};
ghost use Rattle.lq_code.specs.Wrong.{GoesWrong};

/// The code of a program has its functions and its `main` under the same numbers (docs/CODE.md, "Stack code").
pub fn code_keeps_functions()
    ensures functions { (p : PProgram) → length (compiled p).funcs ≡ length p.funcs }
    ensures main { (p : PProgram) → (compiled p).main ≡ p.main }
{}

/// Bytes that go wrong spell no code, and in valid code no instruction breaks a rule (docs/CODE.md, "Bytes" and "Valid code").
pub fn faults_exclude_each_other()
    ensures bytes { (bytes : List ℕ) (at : ℕ) (code : Code) → GoesWrong bytes at → Spells bytes code → ⊥ }
    ensures rules { (code : Code) (func instr : ℕ) → IsValid code → IsFirstBroken code func instr → ⊥ }
{}
