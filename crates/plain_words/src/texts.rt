//! Adding words to a text.

use std::alloc::{AllocError, Global};

/// Adds some texts, one behind the other.
pub fn say(out: &mut String, parts: &[&str]) -> Result<(), AllocError> {
    'parts: for part in parts {
        out.push_str(part)?;
    }
    Ok(())
}

/// Some texts as one.
pub fn joined(alloc: Global, parts: &[&str]) -> Result<String, AllocError> {
    let mut out = String::new(alloc);
    say(&mut out, parts)?;
    Ok(out)
}
