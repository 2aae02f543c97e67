//! The order of sections.

ghost use Rattle.std.specs.Prelude.{◌≡◌, IfOk};
ghost use Rattle.mime_base.specs.Falling.{falling};

use mime_base::{OutOfMemory, Section};

/// The sections by falling priority; those of one priority stay in their order.
pub fn by_priority(sections: Vec<Section>) -> Result<Vec<Section>, OutOfMemory>
    // The greatest priority comes first, and those of one priority keep their order.
    ensures { IfOk result (λ sorted. sorted.items ≡ falling (λ section. section.priority) sections.items) }
{
    let mut sorted = sections;
    sorted.sort_by(|left, right| right.priority.cmp(&left.priority))?;
    Ok(sorted)
}
