// What is wrong with words that are no form, in words.
ghost use Rattle.std.specs.Prelude.{◌≡◌, map, None, IfOk, IfSome};
ghost use Rattle.sb_words.specs.Words.{form_in};

use crate::command::{Command, WordsFault};
use crate::command_line::parsed;
use crate::words::{
    checkpoint_after_of, command_of, connections_of, count_of, hosts_of, key_of, max_jump_of,
    patience_of, port_of, read_form, seconds_of, threads_of, word_of, words_of, workers_of,
};
use clap::ArgMatches;
use std::alloc::{AllocError, Global};

/// What is wrong with these words, in one line without its end; none where they are a form. It is what
/// `clap` says, or names the option whose value is out of its range.
pub fn fault_text(alloc: Global, words: &[&str]) -> Result<Option<String>, AllocError>
    ensures { IfOk result (λ t. IfSome t (λ _. form_in (map (λ w. w.now) words.now) ≡ None)) }
{
    let Err(fault) = read_form(alloc, words) else {
        return Ok(None);
    };
    match fault {
        WordsFault::BadWords => {
            let text = told(alloc, words)?;
            Ok(Some(text))
        }
        WordsFault::OutOfMemory => Err(AllocError),
    }
}

// What is told of words that are no form.
fn told(alloc: Global, words: &[&str]) -> Result<String, AllocError> {
    match parsed(alloc, words) {
        Ok(matches) => String::from_str(alloc, range_text(&matches)),
        Err(error) => {
            let text = format!(in alloc; "{error}")?;
            first_part(alloc, text.as_str())
        }
    }
}

// What stands before the first blank line of an error of `clap`, as one line without the word at its begin.
fn first_part(alloc: Global, text: &str) -> Result<String, AllocError> {
    let first = match text.split_once("\n\n") {
        Some((first, _)) => first,
        None => text,
    };
    let told = first.strip_prefix("error: ").unwrap_or(first);
    told.trim_end().replace(alloc, "\n ", "")
}

// The first option of the command that is out of its range.
fn range_text(matches: &ArgMatches) -> &'static str {
    let Some((name, options)) = matches.subcommand() else {
        return NO_COMMAND;
    };
    match command_of(name) {
        Some(Command::Run) => JUMP_RANGE,
        Some(Command::Client) => client_range(options),
        Some(Command::Serve) => serve_range(options),
        Some(Command::Drill) => drill_range(options),
        Some(Command::Check) | None => NO_COMMAND,
    }
}

fn client_range(options: &ArgMatches) -> &'static str {
    if port_of(word_of(options, "port")).is_none() {
        PORT_RANGE
    } else if key_of(word_of(options, "key")).is_none() {
        KEY_RANGE
    } else {
        PATIENCE_RANGE
    }
}

fn serve_range(options: &ArgMatches) -> &'static str {
    if port_of(word_of(options, "port")).is_none() {
        PORT_RANGE
    } else if workers_of(word_of(options, "workers")).is_none() {
        WORKERS_RANGE
    } else if threads_of(word_of(options, "threads")).is_none() {
        THREADS_RANGE
    } else if connections_of(word_of(options, "connections")).is_none() {
        CONNECTIONS_RANGE
    } else if max_jump_of(0, word_of(options, "max-jump")).is_none() {
        JUMP_RANGE
    } else if seconds_of(0, word_of(options, "request-time")).is_none() {
        REQUEST_TIME_RANGE
    } else if seconds_of(0, word_of(options, "idle-time")).is_none() {
        IDLE_TIME_RANGE
    } else if checkpoint_after_of(word_of(options, "checkpoint-after")).is_none() {
        CHECKPOINT_AFTER_RANGE
    } else if hosts_of(words_of(options, "host")).is_none() {
        HOST_RANGE
    } else {
        KEY_RANGE
    }
}

fn drill_range(options: &ArgMatches) -> &'static str {
    if count_of(word_of(options, "count")).is_none() {
        COUNT_RANGE
    } else {
        SEED_RANGE
    }
}

const NO_COMMAND: &str = "no command is named";

const PORT_RANGE: &str = "--port takes a number from 1 to 65535";

const WORKERS_RANGE: &str = "--workers takes a number from 1 to 65535";

const THREADS_RANGE: &str = "--threads takes a number from 1 to 64";

const CONNECTIONS_RANGE: &str = "--connections takes a number from 1 to 1000000";

const JUMP_RANGE: &str = "--max-jump takes a number from 0 to 100000";

const REQUEST_TIME_RANGE: &str = "--request-time takes a number from 1 to 86400";

const IDLE_TIME_RANGE: &str = "--idle-time takes a number from 1 to 86400";

const CHECKPOINT_AFTER_RANGE: &str =
    "--checkpoint-after takes a number from 0 to 4611686018427387904";

const HOST_RANGE: &str = "--host takes names of 1 to 255 visible characters, up to 8 times";

const KEY_RANGE: &str = "--key takes the name of a file";

const PATIENCE_RANGE: &str = "--patience takes a number from 1 to 7200";

const COUNT_RANGE: &str = "COUNT takes a number from 0 to 1000000";

const SEED_RANGE: &str = "SEED takes a number from 0 to 18446744073709551615";
