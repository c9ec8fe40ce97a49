//! Lists that items are put behind.

use std::alloc::AllocError;

/// Puts an item behind a list.
pub fn put<T: Copy>(list: &mut Vec<T>, item: T) -> Result<(), AllocError> {
    list.push(item)?;
    Ok(())
}

/// Puts an owned item behind a list.
pub fn push<T: Drop>(list: &mut Vec<T>, item: T) -> Result<(), AllocError> {
    list.push(item)?;
    Ok(())
}
