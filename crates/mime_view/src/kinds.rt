//! The types of the hits that were held.

ghost use Rattle.std.specs.Prelude.{◌*◌, length, IfErr, IfOk};
ghost use Rattle.mime_view.specs.Spending.{Looks};
ghost use Rattle.mime_view.specs.Texts.{AreTexts, IsTextsStop, NeedsMemory};

use crate::fault::CacheFault;
use crate::texts::Texts;
use mime_base::{Counted, Meter};
use std::alloc::Global;

/// The types at these offsets, in their order.
// Always inlined: mostly one text, once for a name.
#[inline(always)]
pub fn read_kinds<'a>(
    alloc: Global,
    counted: &Counted<'a>,
    places: &[u32],
    meter: &mut Meter,
) -> Result<Texts<'a>, CacheFault>
    // They are the texts that stand there.
    ensures answer { IfOk result (AreTexts counted.now places.now) }
    // Where texts stand there, only memory can be short.
    ensures need { NeedsMemory counted.now places.now result }
    // Else one of them does not.
    ensures fault { IfErr result (IsTextsStop counted.now places.now) }
    // It costs their texts.
    ensures looks { Looks 0 (256 * length places.now) meter.old meter.new }
{
    if places.len() == 1 {
        let text = counted.text_at(u64::from(places[0]), meter)?;
        return Ok(Texts::one(text));
    }
    let mut texts = Vec::with_capacity(alloc, places.len())?;
    for place in places {
        let text = counted.text_at(u64::from(*place), meter)?;
        texts.push(text)?;
    }
    Ok(Texts::of(texts))
}
