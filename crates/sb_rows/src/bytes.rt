// Bytes as a table has them.
use anyhow::{Context, Result};
use std::alloc::{AllocError, Global};

/// The bytes of a text, in which `<<HEX>>` stands for bytes in hexadecimal, and `<<COUNT*HEX>>` for so
/// many times these. An escape without its end, and one that isn't so formed, is an error.
pub fn bytes_of(alloc: Global, text: &str) -> Result<Vec<u8>> {
    let mut bytes = Vec::new(alloc);
    for (at, part) in text.split("<<").enumerate() {
        let mut plain = part;
        if at > 0 {
            let (escape, rest) = part.split_once(">>").context("an escape has no end")?;
            push_escape(alloc, &mut bytes, escape).context("an escape")?;
            plain = rest;
        }
        bytes.extend_from_slice(plain.as_bytes())?;
    }
    Ok(bytes)
}

fn push_escape(alloc: Global, bytes: &mut Vec<u8>, escape: &str) -> Result<()> {
    let (count, digits) = escape.split_once('*').unwrap_or(("1", escape));
    let piece = hex::decode(alloc, digits)?;
    for _ in 0..count.parse::<u64>()? {
        bytes.extend_from_slice(&piece)?;
    }
    Ok(())
}

/// The same of a text in which each `|` stands for the end of a line of HTTP, CR LF.
pub fn http_bytes(alloc: Global, text: &str) -> Result<Vec<u8>> {
    let text = text.replace(alloc, "|", "<<0d0a>>")?;
    bytes_of(alloc, text.as_str())
}

/// Bytes as such a text, with an escape for each that is no plain character.
pub fn shown(alloc: Global, bytes: &[u8]) -> Result<String, AllocError> {
    let mut text = String::new(alloc);
    for byte in bytes {
        match *byte {
            b' '..=b'~' => text.push(char::from(*byte))?,
            other => text.push_str(format!(in alloc; "<<{other:02x}>>")?.as_str())?,
        }
    }
    text.as_str().replace(alloc, "<<0d>><<0a>>", "|")
}
