//! Which lists of statements live.

ghost use Rattle.std.specs.Prelude.{◌≡◌};
ghost use Rattle.std.specs.List.{list_all};
ghost use Rattle.lq_templates.specs.Lives as spec;

use lq_tree::{PKind, PStmt};

// Whether a list lives behind a statement.
#[cycle(living)]
fn lives(kind: &PKind) -> bool
    ensures { result ≡ spec.lives kind.now }
{
    match kind {
        PKind::Return(_) => false,
        PKind::If(_, first, second) => {
            let first_lives = list_lives(first.as_slice());
            first_lives | list_lives(second.as_slice())
        }
        _ => true,
    }
}

/// Whether a list lives (docs/CHECKING.md, "Templates").
#[cycle(living)]
pub fn list_lives(list: &[PStmt]) -> bool
    ensures { result ≡ spec.all_live list.now }
{
    let mut so_far = true;
    for stmt in list {
        so_far = so_far & lives(&stmt.kind);
    }
    so_far
}
