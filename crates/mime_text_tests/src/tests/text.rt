mod globs2;
mod icons;
mod magic;
mod magic_faults;
mod pairs;

use mime_base::TypeName;

/// Whether names have these texts.
fn are_names(names: &[TypeName], texts: &[&[u8]]) -> bool {
    let mut same = names.len() == texts.len();
    for (name, text) in names.iter().zip(texts) {
        same = same && name.bytes() == *text;
    }
    same
}
