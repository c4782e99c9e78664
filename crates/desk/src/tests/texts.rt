//! Texts made of others.

use std::alloc::{AllocError, Global};

/// The text with another part in place of one, where that stands in it.
pub fn replaced(
    alloc: Global,
    text: &str,
    part: &str,
    changed: &str,
) -> Result<String, AllocError> {
    let mut made = String::new(alloc);
    match text.split_once(part) {
        Some((before, after)) => {
            made.push_str(before)?;
            made.push_str(changed)?;
            made.push_str(after)?;
        }
        None => made.push_str(text)?,
    }
    Ok(made)
}

/// The text with other parts in place of some, one after the other.
pub fn replaced_all(
    alloc: Global,
    text: &str,
    changes: &[(&str, &str)],
) -> Result<String, AllocError> {
    let mut made = String::from_str(alloc, text)?;
    for (part, changed) in changes {
        made = replaced(alloc, made.as_str(), part, changed)?;
    }
    Ok(made)
}
