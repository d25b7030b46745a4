// A line for each call that is made on a connection, for a log.
use crate::network::code_of;
use httpdate::HttpDate;
use percent_encoding::{CONTROLS, percent_encode};
use std::alloc::{AllocError, Global};
use std::io::Eprint;
use std::mem;
use std::rt::Clock;
use std::time::{Duration, Instant};

// The names of the months in a date of HTTP.
static MONTHS: [&str; 12] = [
    "Jan", "Feb", "Mar", "Apr", "May", "Jun", "Jul", "Aug", "Sep", "Oct", "Nov", "Dec",
];

/// The log of one connection. Where it is on, each call is told on standard error in one line, as its
/// response is there: the time at which it was asked (RFC 3339, UTC, with milliseconds), the method and the
/// path, the status and the bytes of the response, and the microseconds between. Of a response that
/// nothing was asked before, as to a request that can't be read, method and path are `-`. A line that can't
/// be written, or for which memory is wanting, is lost.
#[derive(Drop)]
pub struct CallLog<R: Eprint + Clock + Drop> {
    alloc: Global,
    rt: R,
    is_on: bool,
    asked: Option<Asked>,
}

// What was asked, and when.
#[derive(Drop)]
struct Asked {
    words: String,
    at: Duration,
    began: Instant,
}

impl<R: Eprint + Clock + Drop> CallLog<R> {
    /// A log of a connection that was asked nothing yet.
    pub fn new(alloc: Global, rt: R, is_on: bool) -> Self {
        CallLog {
            alloc,
            rt,
            is_on,
            asked: None,
        }
    }

    /// Keeps what is asked, until it is answered.
    pub fn asked(&mut self, method: &[u8], path: &[u8]) {
        if !self.is_on {
            return;
        }
        let asked = asked_now(self.alloc, &self.rt, method, path);
        drop(mem::replace(&mut self.asked, asked));
    }

    /// Tells the call that has this response.
    pub fn answered(&mut self, response: &[u8]) {
        if !self.is_on {
            return;
        }
        let asked = mem::replace(&mut self.asked, None);
        if let Some(line) = line_of(self.alloc, &self.rt, asked, response) {
            let _ = eprintln!(self.rt; "{line}");
        }
    }
}

// What is asked now, where the clock and the memory are there.
fn asked_now<R: Clock>(alloc: Global, rt: &R, method: &[u8], path: &[u8]) -> Option<Asked> {
    let Ok(words) = asked_words(alloc, method, path) else {
        return None;
    };
    let (Ok(at), Ok(began)) = (rt.since_1970(), Instant::now(rt)) else {
        return None;
    };
    Some(Asked { words, at, began })
}

// The line of a call that is answered now.
fn line_of<R: Clock>(
    alloc: Global,
    rt: &R,
    asked: Option<Asked>,
    response: &[u8],
) -> Option<String> {
    let line = match asked {
        Some(Asked { words, at, began }) => {
            let passed = began.elapsed(rt).unwrap_or(Duration::ZERO);
            call_line(alloc, at, words.as_str(), response, passed)
        }
        None => {
            let at = rt.since_1970().unwrap_or(Duration::ZERO);
            call_line(alloc, at, "- -", response, Duration::ZERO)
        }
    };
    line.ok()
}

/// The line of a call, without its end: when it was asked, since 1970; its words (`asked_words`); its
/// response; and how long that took.
pub fn call_line(
    alloc: Global,
    at: Duration,
    words: &str,
    response: &[u8],
    passed: Duration,
) -> Result<String, AllocError> {
    let code = code_of(response);
    let (status, bytes, micros) = (status_of(&code), response.len(), passed.as_micros());
    let time = time_text(alloc, at)?;
    format!(in alloc; "{time} {words} {status} {bytes} {micros}")
}

/// A method and a path as words of a line, with `%XX` for each byte that is no printable character of
/// ASCII.
pub fn asked_words(alloc: Global, method: &[u8], path: &[u8]) -> Result<String, AllocError> {
    let mut words = String::new(alloc);
    percent_encode(method, CONTROLS).append_to(&mut words)?;
    words.push(' ')?;
    percent_encode(path, CONTROLS).append_to(&mut words)?;
    Ok(words)
}

// A moment since 1970 by RFC 3339, in UTC; `-` behind the year 9999.
fn time_text(alloc: Global, at: Duration) -> Result<String, AllocError> {
    let Ok(date) = HttpDate::from_unix_secs(at.as_secs()) else {
        return String::from_str(alloc, "-");
    };
    // as `Sun, 06 Nov 1994 08:49:37 GMT`
    let text = date.to_bytes();
    let (year, month) = (text_of(&text[12..16]), month_of(&text[8..11]));
    let (day, time) = (text_of(&text[5..7]), text_of(&text[17..25]));
    let ms = at.subsec_millis();
    format!(in alloc; "{year}-{month:02}-{day}T{time}.{ms:03}Z")
}

// The number of a month, from 1 on; 0 where it is none.
fn month_of(name: &[u8]) -> usize {
    match MONTHS.iter().position(|month| month.as_bytes() == name) {
        Some(place) => place.saturating_add(1),
        None => 0,
    }
}

// A status code; `-` where a response has none.
fn status_of(code: &[u8]) -> &str {
    if code == b"   ".as_slice() {
        "-"
    } else {
        text_of(code)
    }
}

fn text_of(bytes: &[u8]) -> &str {
    std::str::from_utf8(bytes).unwrap_or("-")
}
