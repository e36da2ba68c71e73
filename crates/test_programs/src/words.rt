//! The words of a run.

use std::io;

/// The words in the type that a run takes.
pub fn owned(rt: &impl AllocGlobal, words: &[&str]) -> io::Result<Vec<String>> {
    let mut owned = Vec::new(rt.alloc());
    for word in words {
        owned.push(String::from_str(rt.alloc(), word)?)?;
    }
    Ok(owned)
}
