//! A message of AMQP 1.0 that is read and written so often, for `bench/amqp.sh`, which times it.
//!
//! Its words are `read` or `write`, the bytes of the body, and how often; without words it does each a
//! few times. The message has ten user properties, five of the system texts and a time to live. It
//! prints how many bytes of message went through.
#![tactic(auto)]

mod sample;

use anyhow::{Context, Result, bail};
use sample::sample;
use sb_amqp::{read_message, write_message};
use sb_model::Message;
use std::alloc::{AllocGlobal, Global};
use std::env;

fn main(rt: HostRuntime) -> Result<()> {
    let mut words = Vec::new(rt.alloc());
    for word in env::args(&rt)?.skip(1) {
        words.push(word)?;
    }
    tell_asked(&rt, words.as_slice())
}

// Does what the words ask for; without words each task a few times.
fn tell_asked<R: Print + AllocGlobal>(rt: &R, words: &[String]) -> Result<()> {
    match words {
        [] => tell_few(rt),
        [task, size, count] => tell_numbered(rt, task.as_str(), size.as_str(), count.as_str()),
        _ => bail!("the words are read or write, a size and a count"),
    }
}

fn tell_few<R: Print + AllocGlobal>(rt: &R) -> Result<()> {
    tell(rt, "read", 1024, 3)?;
    tell(rt, "write", 1024, 3)
}

fn tell_numbered<R: Print + AllocGlobal>(
    rt: &R,
    task: &str,
    size: &str,
    count: &str,
) -> Result<()> {
    let size = number_in(size, "the size")?;
    let count = number_in(count, "the count")?;
    tell(rt, task, size, count)
}

// The number that a word tells; `name` says of what.
fn number_in(word: &str, name: &'static str) -> Result<u32> {
    word.parse::<u32>().context(name)
}

// Does it so often, and prints how many bytes that were.
fn tell<R: Print + AllocGlobal>(rt: &R, task: &str, size: u32, count: u32) -> Result<()> {
    let message = sample(rt.alloc(), size)?;
    let done = do_often(rt.alloc(), task, &message, count);
    drop(message);
    let bytes = done?;
    println!(rt; "{task}: {bytes} bytes in {count} messages")?;
    Ok(())
}

// The task, so often, and how many bytes that were.
fn do_often(alloc: Global, task: &str, message: &Message, count: u32) -> Result<u64> {
    match task {
        "read" => read_often(alloc, message, count),
        "write" => write_often(alloc, message, count),
        _ => bail!("the first word is read or write"),
    }
}

fn read_often(alloc: Global, message: &Message, count: u32) -> Result<u64> {
    let bytes = write_message(alloc, message)?;
    let mut total: u64 = 0;
    for _ in 0..count {
        let Ok(read) = read_message(alloc, bytes.as_slice()) else {
            bail!("what was written isn't read");
        };
        if read.props.as_slice().len() == message.props.as_slice().len() {
            total = total.saturating_add(bytes.len() as u64);
        }
        drop(read);
    }
    Ok(total)
}

fn write_often(alloc: Global, message: &Message, count: u32) -> Result<u64> {
    let mut total: u64 = 0;
    for _ in 0..count {
        let bytes = write_message(alloc, message)?;
        total = total.saturating_add(bytes.len() as u64);
    }
    Ok(total)
}
