ghost use Rattle.std.specs.Prelude.{◌≡◌, IfOk};
ghost use Rattle.live_plant.specs.DeadLine.{dead_line};

use line_base::Label;
use std::alloc::{AllocError, Global};

/// The labels of a circuit without a token, as its line shows them.
pub fn dead_line(alloc: Global, labels: &[Label]) -> Result<Vec<u8>, AllocError>
    ensures { IfOk result (λ text. text.items ≡ dead_line labels.now) }
{
    let mut text = Vec::from_slice(alloc, b"dead:")?;
    for label in labels {
        text.push(b' ')?;
        text.extend_from_slice(label.text())?;
    }
    Ok(text)
}
