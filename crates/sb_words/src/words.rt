// The words that the program is called with, and the form that they are.
ghost use Rattle.std.specs.Prelude.{◌≡◌, ◌≢◌, ◌≤◌, codes, map, option_map, option_and_then, Option, None, Some, IfOk, IfErr, IfSome, IfNone};
ghost use Rattle.std.specs.List.{list_all};
ghost use Rattle.clap.specs.Words.{all_of, first_of, found_of, kind_of, rows_of, subcommand_rows_of};
ghost use Rattle.sb_words.specs.Words.{MayAsk, MayNotAsk, command_named, form_at, form_in, form_value};
ghost use Rattle.sb_words.specs.Words as line;

use crate::command::{Command, Form, WordsFault};
use crate::command_line::parsed;
use clap::ArgMatches;
use clap::error::ErrorKind;
use sb_http::number;
use std::alloc::{AllocError, Global};

const MAX_PORT: u64 = 65_535;

/// The most workers that words may ask for.
const MAX_WORKERS: u64 = 65_535;

/// How many workers there are where words name no number.
const DEFAULT_WORKERS: u16 = 1024;

/// The most threads that words may ask for.
const MAX_THREADS: u64 = 64;

/// The most connections of a worker that words may ask for.
const MAX_CONNECTIONS: u64 = 1_000_000;

/// The number of connections of a worker that ends after none: none ever takes so many.
const NO_END: u64 = u64::MAX;

/// The most days that words may let time jump.
const MAX_JUMP: u64 = 100_000;

/// The days that a server lets time jump where words name no number.
const SERVE_JUMP: u32 = 400;

/// A run lets time jump by any number of days where words name none.
const RUN_JUMP: u32 = 0;

/// The longest limit of time that words may ask for, in seconds.
const MAX_SECONDS: u64 = 86_400;

/// The seconds that a request may take where words name no number.
const REQUEST_TIME: u32 = 60;

/// The seconds that a connection is kept without a request where words name no number.
const IDLE_TIME: u32 = 600;

/// The longest patience that words may ask for, in seconds.
const MAX_PATIENCE: u64 = 7_200;

/// The seconds of patience where words name no number.
const DEFAULT_PATIENCE: u16 = 120;

/// The most bytes of records after which words may have a server make a checkpoint, 2^62.
const MAX_CHECKPOINT_AFTER: u64 = 4_611_686_018_427_387_904;

/// Those after which it makes one where words name no number.
const CHECKPOINT_AFTER: u64 = 268_435_456;

/// The most calls that words may have a drill make.
const MAX_COUNT: u64 = 1_000_000;

/// The greatest seed, as it is written.
const GREATEST_SEED: &str = "18446744073709551615";

/// The most names of hosts that words may list.
const MAX_HOSTS: usize = 8;

/// The longest name of a host.
const MAX_HOST: usize = 255;

/// The form that these words, without the program's name, are.
pub fn read_form<'w>(alloc: Global, words: &'w [&str]) -> Result<Form<'w>, WordsFault>
    ensures ok { IfOk result (λ f. form_in (map (λ w. w.now) words.now) ≡ Some (form_value f)) }
    ensures bad { IfErr result (λ e. e ≡ WordsFault.BadWords → form_in (map (λ w. w.now) words.now) ≡ None) }
{
    let matches = match parsed(alloc, words) {
        Ok(matches) => matches,
        Err(error) => return Err(words_fault(&error)),
    };
    let found = form_found(alloc, &matches);
    drop(matches);
    match found {
        Ok(Some(form)) => Ok(form),
        Ok(None) => Err(WordsFault::BadWords),
        Err(_) => Err(WordsFault::OutOfMemory),
    }
}

/// The help or the version that these words ask for, if they do: they are no form then.
#[tactic(auto, using(crate::proofs::Forms::asked_refused))]
pub fn asked_text(alloc: Global, words: &[&str]) -> Result<Option<String>, AllocError>
    ensures asked { IfOk result (λ t. IfSome t (λ _. MayAsk (map (λ w. w.now) words.now))) }
    ensures other { IfOk result (λ t. IfNone t (MayNotAsk (map (λ w. w.now) words.now))) }
    ensures no_form { IfOk result (λ t. IfSome t (λ _. form_in (map (λ w. w.now) words.now) ≡ None)) }
{
    let Err(error) = parsed(alloc, words) else {
        return Ok(None);
    };
    if asks(&error) {
        let text = format!(in alloc; "{error}")?;
        return Ok(Some(text));
    }
    if error.kind() == ErrorKind::OutOfMemory {
        return Err(AllocError);
    }
    Ok(None)
}

fn words_fault(error: &clap::Error) -> WordsFault
    ensures { result ≡ WordsFault.BadWords → kind_of error.now ≢ ErrorKind.OutOfMemory }
{
    match error.kind() {
        ErrorKind::OutOfMemory => WordsFault::OutOfMemory,
        _ => WordsFault::BadWords,
    }
}

fn asks(error: &clap::Error) -> bool
    ensures { result ≡ line.asks_for_text (kind_of error.now) }
{
    matches!(
        error.kind(),
        ErrorKind::DisplayHelp | ErrorKind::DisplayVersion
    )
}

// The form of what was found.
fn form_found<'w>(alloc: Global, matches: &ArgMatches<'w>) -> Result<Option<Form<'w>>, AllocError>
    ensures { IfOk result (λ form. option_map form_value form ≡ form_at (subcommand_rows_of matches.now)) }
{
    match matches.subcommand() {
        Some((name, options)) => form_of(alloc, name, options),
        None => Ok(None),
    }
}

// The form of the command with this name, by what was found for its options.
fn form_of<'w>(
    alloc: Global,
    name: &str,
    options: &ArgMatches<'w>,
) -> Result<Option<Form<'w>>, AllocError>
    ensures { IfOk result (λ form. option_map form_value form ≡ form_at (Some (name.now, rows_of (found_of options.now)))) }
{
    let Some(command) = command_of(name) else {
        return Ok(None);
    };
    match command {
        Command::Run => Ok(run_form(alloc, options)),
        Command::Check => Ok(check_form(alloc, options)),
        Command::Client => Ok(client_form(alloc, options)),
        Command::Serve => serve_form(alloc, options),
        Command::Drill => Ok(drill_form(alloc, options)),
    }
}

pub(crate) fn command_of(word: &str) -> Option<Command>
    ensures { result ≡ command_named word.now }
{
    if word == "run" {
        Some(Command::Run)
    } else if word == "check" {
        Some(Command::Check)
    } else if word == "client" {
        Some(Command::Client)
    } else if word == "serve" {
        Some(Command::Serve)
    } else if word == "drill" {
        Some(Command::Drill)
    } else {
        None
    }
}

// The form of a command that names nothing beside it.
fn form_with<'w>(alloc: Global, command: Command) -> Form<'w>
    ensures { form_value result ≡ line.form_of command }
{
    Form {
        command,
        folder: "",
        port: 0,
        workers: 0,
        threads: 0,
        connections: 0,
        max_jump: 0,
        request_time: 0,
        idle_time: 0,
        hosts: Vec::new(alloc),
        key_file: "",
        patience: 0,
        look: false,
        checkpoint: false,
        checkpoint_after: 0,
        log: false,
        count: 0,
        seed: 0,
    }
}

fn run_form<'w>(alloc: Global, options: &ArgMatches<'w>) -> Option<Form<'w>>
    ensures { option_map form_value result ≡ line.run_in (rows_of (found_of options.now)) }
{
    let Some(folder) = word_of(options, "data") else {
        return None;
    };
    let Some(max_jump) = max_jump_of(RUN_JUMP, word_of(options, "max-jump")) else {
        return None;
    };
    Some(Form {
        folder,
        max_jump,
        checkpoint: flag_of(word_of(options, "checkpoint")),
        ..form_with(alloc, Command::Run)
    })
}

fn check_form<'w>(alloc: Global, options: &ArgMatches<'w>) -> Option<Form<'w>>
    ensures { option_map form_value result ≡ line.check_in (rows_of (found_of options.now)) }
{
    let Some(folder) = word_of(options, "data") else {
        return None;
    };
    Some(Form {
        folder,
        look: flag_of(word_of(options, "look")),
        ..form_with(alloc, Command::Check)
    })
}

fn client_form<'w>(alloc: Global, options: &ArgMatches<'w>) -> Option<Form<'w>>
    ensures { option_map form_value result ≡ line.client_in (rows_of (found_of options.now)) }
{
    let Some(port) = port_of(word_of(options, "port")) else {
        return None;
    };
    let Some(key_file) = key_of(word_of(options, "key")) else {
        return None;
    };
    let Some(patience) = patience_of(word_of(options, "patience")) else {
        return None;
    };
    Some(Form {
        port,
        key_file,
        patience,
        ..form_with(alloc, Command::Client)
    })
}

fn serve_form<'w>(alloc: Global, options: &ArgMatches<'w>) -> Result<Option<Form<'w>>, AllocError>
    ensures { IfOk result (λ form. option_map form_value form ≡ line.serve_in (rows_of (found_of options.now))) }
{
    let Some(mut form) = timed_server_form(alloc, options) else {
        return Ok(None);
    };
    let Some(names) = hosts_of(words_of(options, "host")) else {
        return Ok(None);
    };
    let Some(key_file) = key_of(word_of(options, "key")) else {
        return Ok(None);
    };
    let Some(threads) = threads_of(word_of(options, "threads")) else {
        return Ok(None);
    };
    let Some(checkpoint_after) = checkpoint_after_of(word_of(options, "checkpoint-after")) else {
        return Ok(None);
    };
    form.hosts = names.to_vec(alloc)?;
    form.key_file = key_file;
    form.log = flag_of(word_of(options, "log"));
    form.threads = threads;
    form.checkpoint_after = checkpoint_after;
    form.checkpoint = flag_of(word_of(options, "checkpoint"));
    Ok(Some(form))
}

fn drill_form<'w>(alloc: Global, options: &ArgMatches<'w>) -> Option<Form<'w>>
    ensures { option_map form_value result ≡ line.drill_in (rows_of (found_of options.now)) }
{
    let Some(count) = count_of(word_of(options, "count")) else {
        return None;
    };
    let Some(seed) = seed_of(word_of(options, "seed")) else {
        return None;
    };
    Some(Form {
        count,
        seed,
        ..form_with(alloc, Command::Drill)
    })
}

// The form of a server without the rules of who may call it, with its limits of time.
fn timed_server_form<'w>(alloc: Global, options: &ArgMatches<'w>) -> Option<Form<'w>>
    ensures { option_map form_value result ≡ line.timed_server_in (rows_of (found_of options.now)) }
{
    let Some(mut form) = open_server_form(alloc, options) else {
        return None;
    };
    let Some(request_time) = seconds_of(REQUEST_TIME, word_of(options, "request-time")) else {
        return None;
    };
    let Some(idle_time) = seconds_of(IDLE_TIME, word_of(options, "idle-time")) else {
        return None;
    };
    form.request_time = request_time;
    form.idle_time = idle_time;
    Some(form)
}

// The same without them.
fn open_server_form<'w>(alloc: Global, options: &ArgMatches<'w>) -> Option<Form<'w>>
    ensures { option_map form_value result ≡ line.open_server_in (rows_of (found_of options.now)) }
{
    let Some(folder) = word_of(options, "data") else {
        return None;
    };
    let Some(port) = port_of(word_of(options, "port")) else {
        return None;
    };
    let Some(workers) = workers_of(word_of(options, "workers")) else {
        return None;
    };
    let Some(connections) = connections_of(word_of(options, "connections")) else {
        return None;
    };
    let Some(max_jump) = max_jump_of(SERVE_JUMP, word_of(options, "max-jump")) else {
        return None;
    };
    Some(Form {
        folder,
        port,
        workers,
        connections,
        max_jump,
        ..form_with(alloc, Command::Serve)
    })
}

// The word behind an option, if it is there.
pub(crate) fn word_of<'w>(options: &ArgMatches<'w>, name: &str) -> Option<&'w str>
    ensures { option_map (λ w. w.now) result ≡ first_of name.now (rows_of (found_of options.now)) }
{
    options.get_str(name)
}

// The words behind all uses of an option, if it is there.
pub(crate) fn words_of<'m, 'w>(options: &'m ArgMatches<'w>, name: &str) -> Option<&'m [&'w str]>
    ensures { option_map (λ ws. map (λ w. w.now) ws.now) result ≡ all_of name.now (rows_of (found_of options.now)) }
{
    options.get_raw(name)
}

pub(crate) fn port_of(word: Option<&str>) -> Option<u16>
    ensures { result ≡ line.port_by (option_map (λ w. w.now) word.entry) }
{
    let Some(word) = word else {
        return None;
    };
    let Some(port) = number_within(word, MAX_PORT) else {
        return None;
    };
    Some(port as u16)
}

pub(crate) fn workers_of(word: Option<&str>) -> Option<u16>
    ensures { result ≡ line.workers_by (option_map (λ w. w.now) word.entry) }
{
    let Some(word) = word else {
        return Some(DEFAULT_WORKERS);
    };
    let Some(workers) = number_within(word, MAX_WORKERS) else {
        return None;
    };
    Some(workers as u16)
}

pub(crate) fn threads_of(word: Option<&str>) -> Option<u16>
    ensures { result ≡ line.threads_by (option_map (λ w. w.now) word.entry) }
{
    let Some(word) = word else {
        return Some(0);
    };
    let Some(threads) = number_within(word, MAX_THREADS) else {
        return None;
    };
    Some(threads as u16)
}

pub(crate) fn connections_of(word: Option<&str>) -> Option<u64>
    ensures { result ≡ line.connections_by (option_map (λ w. w.now) word.entry) }
{
    match word {
        Some(word) => number_within(word, MAX_CONNECTIONS),
        None => Some(NO_END),
    }
}

pub(crate) fn max_jump_of(usual: u32, word: Option<&str>) -> Option<u32>
    ensures { result ≡ line.max_jump_by usual (option_map (λ w. w.now) word.entry) }
{
    let Some(word) = word else {
        return Some(usual);
    };
    let Some(days) = number_to(word, MAX_JUMP) else {
        return None;
    };
    Some(days as u32)
}

pub(crate) fn seconds_of(usual: u32, word: Option<&str>) -> Option<u32>
    ensures { result ≡ line.seconds_by usual (option_map (λ w. w.now) word.entry) }
{
    let Some(word) = word else {
        return Some(usual);
    };
    let Some(seconds) = number_within(word, MAX_SECONDS) else {
        return None;
    };
    Some(seconds as u32)
}

pub(crate) fn patience_of(word: Option<&str>) -> Option<u16>
    ensures { result ≡ line.patience_by (option_map (λ w. w.now) word.entry) }
{
    let Some(word) = word else {
        return Some(DEFAULT_PATIENCE);
    };
    let Some(seconds) = number_within(word, MAX_PATIENCE) else {
        return None;
    };
    Some(seconds as u16)
}

pub(crate) fn checkpoint_after_of(word: Option<&str>) -> Option<u64>
    ensures { result ≡ line.checkpoint_after_by (option_map (λ w. w.now) word.entry) }
{
    match word {
        Some(word) => number_to(word, MAX_CHECKPOINT_AFTER),
        None => Some(CHECKPOINT_AFTER),
    }
}

pub(crate) fn count_of(word: Option<&str>) -> Option<u32>
    ensures { result ≡ line.count_by (option_map (λ w. w.now) word.entry) }
{
    let Some(word) = word else {
        return None;
    };
    let Some(count) = number_to(word, MAX_COUNT) else {
        return None;
    };
    Some(count as u32)
}

// A number is lowered to the greatest of 64 bits as it is read, so that one is told by its digits.
pub(crate) fn seed_of(word: Option<&str>) -> Option<u64>
    ensures { result ≡ line.seed_by (option_map (λ w. w.now) word.entry) }
{
    let Some(word) = word else {
        return None;
    };
    if word == GREATEST_SEED {
        return Some(u64::MAX);
    }
    number_to(word, u64::MAX - 1)
}

pub(crate) fn key_of<'w>(word: Option<&'w str>) -> Option<&'w str>
    ensures { option_map (λ w. w.now) result ≡ line.key_by (option_map (λ w. w.now) word.entry) }
{
    match word {
        Some(file) if file.is_empty() => None,
        Some(file) => Some(file),
        None => Some(""),
    }
}

pub(crate) fn hosts_of<'m, 'w>(words: Option<&'m [&'w str]>) -> Option<&'m [&'w str]>
    ensures { option_map (λ ws. map (λ w. w.now) ws.now) result ≡ line.hosts_by (option_map (λ ws. map (λ w. w.now) ws.now) words.entry) }
{
    match words {
        Some(names) if are_hosts(names) => Some(names),
        Some(_) => None,
        None => Some(&[]),
    }
}

fn are_hosts(names: &[&str]) -> bool
    ensures { result ≡ line.are_hosts (map (λ w. w.now) names.now) }
{
    names.len() <= MAX_HOSTS && all_hosts(names)
}

fn all_hosts(names: &[&str]) -> bool
    ensures { result ≡ list_all (λ n. line.is_host n.now) names.now }
{
    names.iter().all(|name| is_host(name))
}

#[tactic(auto, unfolding(crate::specs::Words::is_host))]
fn is_host(name: &str) -> bool
    ensures { result ≡ line.is_host name.now }
{
    let bytes = name.as_bytes();
    1 <= bytes.len() && bytes.len() <= MAX_HOST && all_visible(bytes)
}

fn all_visible(bytes: &[u8]) -> bool
    ensures { result ≡ list_all line.is_visible bytes.now }
{
    bytes.iter().all(|b| is_visible(*b))
}

fn is_visible(b: u8) -> bool
    ensures { result ≡ line.is_visible b }
{
    33 <= b && b <= 126
}

fn flag_of(word: Option<&str>) -> bool
    ensures { result ≡ line.flag_by (option_map (λ w. w.now) word.entry) }
{
    match word {
        Some(word) => word == "true",
        None => false,
    }
}

// The number that a word writes, which may be 0, up to this one.
fn number_to(word: &str, most: u64) -> Option<u64>
    ensures value { result ≡ line.number_to most word.now }
    ensures bound { IfSome result (λ n. n ≤ most) }
{
    if word == "0" {
        Some(0)
    } else {
        number_within(word, most)
    }
}

// The number that a word writes in decimal digits of which the first isn't 0, up to this one.
fn number_within(word: &str, most: u64) -> Option<u64>
    ensures value { result ≡ line.number_within most word.now }
    ensures bound { IfSome result (λ n. n ≤ most) }
{
    let digits = word.as_bytes();
    let Some(n) = number(digits) else {
        return None;
    };
    if begins_with_zero(digits) || n > most {
        return None;
    }
    Some(n)
}

fn begins_with_zero(word: &[u8]) -> bool
    ensures { result ≡ line.begins_with_zero word.now }
{
    match word {
        [b, ..] => *b == b'0',
        [] => false,
    }
}
