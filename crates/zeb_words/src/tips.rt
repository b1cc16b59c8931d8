//! The parser's texts without what they advise.

use std::alloc::{AllocError, Global};

/// How a line begins by which the parser advises something. Some advise what doesn't help: a letter behind a command is said to be a value.
const TIP: &str = "  tip: ";

/// The lines of a text but those that advise something; each ends with an LF then. Of two empty lines that meet so one stays.
pub(crate) fn without_tips(alloc: Global, text: &str) -> Result<String, AllocError> {
    let mut kept = String::new(alloc);
    let mut is_behind_empty = false;
    for line in text.lines() {
        if line.starts_with(TIP) || (is_behind_empty && line.is_empty()) {
            continue;
        }
        is_behind_empty = line.is_empty();
        kept.push_str(line)?;
        kept.push_str("\n")?;
    }
    Ok(kept)
}
