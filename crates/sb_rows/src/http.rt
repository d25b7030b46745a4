// Requests and responses as a table has them.
use crate::bytes::http_bytes;
use anyhow::Result;
use std::alloc::Global;

/// The bytes of a request. A row `METHOD TARGET|FIELD|..||BODY` gets the version, the field `Host: h` and
/// the length of the body; one that has a version is taken as it stands.
pub fn request_of(alloc: Global, row: &str) -> Result<Vec<u8>> {
    if row.contains(" HTTP/1.") {
        return http_bytes(alloc, row);
    }
    let (head, body) = row.split_once("||").unwrap_or((row, ""));
    let body = http_bytes(alloc, body)?;
    let (line, fields) = head.split_once('|').unwrap_or((head, ""));
    let end = if fields.is_empty() { "" } else { "|" };
    let length = body.len();
    let head = format!(in alloc;
        "{line} HTTP/1.1|Host: h|{fields}{end}Content-Length: {length}||"
    )?;
    let mut bytes = http_bytes(alloc, head.as_str())?;
    bytes.extend_from_slice(&body)?;
    Ok(bytes)
}

/// The bytes of a response, which a row has without `HTTP/1.1`.
pub fn response_bytes(alloc: Global, row: &str) -> Result<Vec<u8>> {
    let text = format!(in alloc; "HTTP/1.1 {row}")?;
    http_bytes(alloc, text.as_str())
}
