//! Caches of data directories.

use mime_samples::texts::{Texts, merged};
use mime_store::write_cache;
use std::alloc::Global;
use std::test::Fail;

/// The cache of a directory, which takes at most that many bytes.
pub fn written(alloc: Global, texts: Texts<'_>, limit: usize) -> Result<Vec<u8>, Fail> {
    let database = merged(alloc, &[texts])?;
    Ok(write_cache(alloc, &database, limit)?)
}
