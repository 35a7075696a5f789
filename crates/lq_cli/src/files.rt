ghost use Rattle.std.specs.Prelude.{◌≡◌, ℕ, ◌≤◌, length};
ghost use Rattle.lq_cli.specs.Files.{IsFile, FileAnswers};
ghost use Rattle.lq_cli.specs.Seen.{shelf_state};
ghost use Rattle.lq_cli.specs.Stop.{Reading};

use crate::answer::Answer;
use crate::stop::Stop;
use lq_shelf::{Fetch, Shelf};
use lq_tree::Quantity;

/// Fetches a file whose size is a quantity that has a limit.
pub fn fetch<'a, H: Shelf>(
    shelf: &mut H,
    name: &'a str,
    size: Quantity,
) -> Result<Vec<u8>, Stop<'a>>
    ensures { Reading (λ bytes. IsFile (H.holding shelf.old) size name.now bytes.items) (FileAnswers size name.now)
        (shelf_state H.holding H.faults H.failed_name shelf.old) (shelf_state H.holding H.faults H.failed_name shelf.new) result }
{
    let allowed = size.allowed() as usize;
    match shelf.fetch(name, allowed + 1) {
        Ok(bytes) if bytes.len() <= allowed => Ok(bytes),
        Ok(bytes) => Err(Stop::from(size.passed(bytes.len() as u64))),
        Err(Fetch::Failed) => Err(Stop::Told(Answer::ReadFault(name))),
        Err(Fetch::NoMemory) => Err(Stop::NoMemory),
    }
}
