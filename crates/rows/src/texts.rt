//! The bytes that texts of cases stand for.

use crate::faults::Fault;
use crate::folder::Folder;
use std::alloc::Global;

/// A text's bytes, where `%` and two hexadecimal digits are one byte.
pub fn bytes_of(alloc: Global, text: &str) -> Result<Vec<u8>, Fault> {
    let (first, _) = text.split_once('%').unwrap_or((text, ""));
    let mut bytes = Vec::from_slice(alloc, first.as_bytes())?;
    for part in text.split('%').skip(1) {
        add_coded(alloc, &mut bytes, part)?;
    }
    Ok(bytes)
}

/// The text that a text stands for.
pub fn text_of(alloc: Global, text: &str) -> Result<String, Fault> {
    match String::from_utf8(bytes_of(alloc, text)?) {
        Ok(text) => Ok(text),
        Err(_) => Err(Fault::Line("bytes that are no text")),
    }
}

/// Adds the byte that two digits stand for, and what stands behind them.
fn add_coded(alloc: Global, bytes: &mut Vec<u8>, part: &str) -> Result<(), Fault> {
    let (digits, rest) = (part.get(..2).unwrap_or("none"), part.get(2..).unwrap_or(""));
    let Ok(decoded) = hex::decode(alloc, digits) else {
        return Err(Fault::Line("a % without two digits"));
    };
    bytes.extend_from_slice(&decoded)?;
    bytes.extend_from_slice(rest.as_bytes())?;
    Ok(())
}

/// A text with what each `<..>` stands for: `<FILE>` for the digits of that file's bytes, `<100 @and >` for `@and ` a hundred times.
pub fn expanded(folder: &Folder, text: &str) -> Result<String, Fault> {
    let (first, _) = text.split_once('<').unwrap_or((text, ""));
    let mut filled = String::from_str(folder.alloc, first)?;
    for part in text.split('<').skip(1) {
        let Some((name, behind)) = part.split_once('>') else {
            return Err(Fault::Line("a < without its >"));
        };
        filled.push_str(&meaning(folder, name)?)?;
        filled.push_str(behind)?;
    }
    Ok(filled)
}

/// What stands for a name in brackets.
fn meaning(folder: &Folder, name: &str) -> Result<String, Fault> {
    let Some((count, text)) = name.split_once(' ') else {
        return Ok(hex::encode(folder.alloc, folder.bytes(name)?)?);
    };
    match count.parse::<usize>() {
        Ok(count) => Ok(text.repeat(folder.alloc, count)?),
        Err(_) => Err(Fault::Line("no number of times")),
    }
}
