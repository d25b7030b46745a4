// The command line of the program, as `clap` has it.
ghost use Rattle.std.specs.Prelude.{◌≡◌, codes, map, false, IfOk};
ghost use Rattle.clap.specs.Words.{FailsBy, HasMatchesOf, app_of, fault_of, new_app, rule_of, shape_of};
ghost use Rattle.sb_words.specs.Words as line;
ghost use Rattle.clap.specs.declared.builder.command.Command.TheViews.{out-Command as fields_of};

use clap::{Arg, ArgAction, ArgMatches};
use sb_numbers::VERSION;
use std::alloc::{AllocError, Global};

// What stands at the end of the program's help.
const EXAMPLES: &str =
    "Examples:{n}  bus serve --data data --port 8080{n}  bus client --port 8080 < orders.script{n}  bus help serve";

/// What `clap` makes of these words, without the program's name.
pub(crate) fn parsed<'w>(alloc: Global, words: &'w [&str]) -> Result<ArgMatches<'w>, clap::Error>
    ensures fault { FailsBy (fault_of line.program (map (λ w. w.now) words.now)) result }
    ensures found { IfOk result (HasMatchesOf line.program (map (λ w. w.now) words.now)) }
{
    command_line(alloc)?.try_get_matches_from(words)
}

fn command_line<'a>(alloc: Global) -> Result<clap::Command<'a>, AllocError>
    ensures { IfOk result (λ c. app_of c ≡ line.program) }
{
    let commands = folder_commands(alloc)?;
    let Ok(client) = client_command(alloc) else {
        drop(commands);
        return Err(AllocError);
    };
    let commands = commands.subcommand(client)?;
    let Ok(serve) = serve_command(alloc) else {
        drop(commands);
        return Err(AllocError);
    };
    let commands = commands.subcommand(serve)?;
    let Ok(drill) = drill_command(alloc) else {
        drop(commands);
        return Err(AllocError);
    };
    commands.subcommand(drill)
}

// The commands over a folder alone.
fn folder_commands<'a>(alloc: Global) -> Result<clap::Command<'a>, AllocError>
    ensures { IfOk result (λ c. app_of c ≡ line.folder_commands) }
{
    let bus = bus_command(alloc)?;
    let Ok(run) = run_command(alloc) else {
        drop(bus);
        return Err(AllocError);
    };
    let bus = bus.subcommand(run)?;
    let Ok(check) = check_command(alloc) else {
        drop(bus);
        return Err(AllocError);
    };
    bus.subcommand(check)
}

// The program without its commands.
fn bus_command<'a>(alloc: Global) -> Result<clap::Command<'a>, AllocError>
    ensures app { IfOk result (λ c. app_of c ≡ line.bus) }
    ensures local { IfOk result (λ c. (fields_of c).has_globals ≡ false) }
{
    let about = "A message broker over a journal in a folder";
    let bus = described(alloc, "bus", about, EXAMPLES)
        .version(VERSION)
        .no_binary_name(true)
        .subcommand_required(true);
    let called = called_bus(bus)?;
    Ok(called)
}

// A command without options, and what its help says of it.
fn described<'a>(
    alloc: Global,
    name: &'a str,
    about: &'a str,
    example: &'a str,
) -> clap::Command<'a>
    ensures app { app_of result ≡ new_app name.entry.now }
    ensures local { (fields_of result).has_globals ≡ false }
{
    clap::Command::new(alloc, name)
        .about(about)
        .after_help(example)
}

// The same command, which stands as `bus` in each usage.
fn called_bus(command: clap::Command<'_>) -> Result<clap::Command<'_>, AllocError>
    ensures app { IfOk result (λ c. app_of c ≡ app_of command.entry) }
    ensures local { IfOk result (λ c. (fields_of c).has_globals ≡ (fields_of command.entry).has_globals) }
{
    let called = command.bin_name("bus")?;
    Ok(called)
}

fn run_command<'a>(alloc: Global) -> Result<clap::Command<'a>, AllocError>
    ensures shape { IfOk result (λ c. shape_of c ≡ line.run_command) }
    ensures local { IfOk result (λ c. (fields_of c).has_globals ≡ false) }
{
    let about = "Answer the script lines of the input";
    let example = "Example: bus run --data data < orders.script";
    described(alloc, "run", about, example)
        .arg(data_option(alloc))?
        .arg(value_option(
            alloc,
            "max-jump",
            "DAYS",
            "The most days that the time of a line may be beyond the clock of the system: 0 to 100000; 0 is any number [default: 0]",
        ))?
        .arg(checkpoint_option(alloc))
}

fn check_command<'a>(alloc: Global) -> Result<clap::Command<'a>, AllocError>
    ensures shape { IfOk result (λ c. shape_of c ≡ line.check_command) }
    ensures local { IfOk result (λ c. (fields_of c).has_globals ≡ false) }
{
    let about = "Tell the numbers of the namespace";
    let example = "Example: bus check --data data";
    described(alloc, "check", about, example)
        .arg(data_option(alloc))?
        .arg(flag_option(
            alloc,
            "look",
            "Write nothing: look at the files as they stand, beside a server too",
        ))
}

fn client_command<'a>(alloc: Global) -> Result<clap::Command<'a>, AllocError>
    ensures shape { IfOk result (λ c. shape_of c ≡ line.client_command) }
    ensures local { IfOk result (λ c. (fields_of c).has_globals ≡ false) }
{
    let about = "Have a server answer the script lines of the input";
    let example = "Example: bus client --port 8080 < orders.script";
    described(alloc, "client", about, example)
        .arg(port_option(alloc))?
        .arg(key_option(alloc))?
        .arg(value_option(
            alloc,
            "patience",
            "S",
            "After how many seconds a server that says nothing is given up: 1 to 7200 [default: 120]",
        ))
}

fn serve_command<'a>(alloc: Global) -> Result<clap::Command<'a>, AllocError>
    ensures shape { IfOk result (λ c. shape_of c ≡ line.serve_command) }
    ensures local { IfOk result (λ c. (fields_of c).has_globals ≡ false) }
{
    timed_server(alloc)?
        .arg(list_option(
            alloc,
            "host",
            "NAME",
            "A name by which the server may be called, beside localhost: up to 8 times, each of 1 to 255 visible characters [default: any name]",
        ))?
        .arg(key_option(alloc))
}

// The same server with its limits of time.
fn timed_server<'a>(alloc: Global) -> Result<clap::Command<'a>, AllocError>
    ensures app { IfOk result (λ c. app_of c ≡ line.timed_server) }
    ensures local { IfOk result (λ c. (fields_of c).has_globals ≡ false) }
{
    saving_server(alloc)?
        .arg(value_option(
            alloc,
            "request-time",
            "S",
            "For how many seconds a request may take, and its response: 1 to 86400; each KiB of it allows one more [default: 60]",
        ))?
        .arg(value_option(
            alloc,
            "idle-time",
            "S",
            "For how many seconds a connection is kept without a request: 1 to 86400 [default: 600]",
        ))
}

// The server with its limits, whether each call is told, and when it makes checkpoints.
fn saving_server<'a>(alloc: Global) -> Result<clap::Command<'a>, AllocError>
    ensures app { IfOk result (λ c. app_of c ≡ line.saving_server) }
    ensures local { IfOk result (λ c. (fields_of c).has_globals ≡ false) }
{
    limited_server(alloc)?
        .arg(value_option(
            alloc,
            "checkpoint-after",
            "BYTES",
            "Make a checkpoint once the records behind the last one take more than BYTES, and at least twice the bytes of its base: 0 to 4611686018427387904; 0 is never [default: 268435456]",
        ))?
        .arg(checkpoint_option(alloc))
}

// The server with its limits, and whether each call is told.
fn limited_server<'a>(alloc: Global) -> Result<clap::Command<'a>, AllocError>
    ensures app { IfOk result (λ c. app_of c ≡ line.limited_server) }
    ensures local { IfOk result (λ c. (fields_of c).has_globals ≡ false) }
{
    plain_server(alloc)?
        .arg(value_option(
            alloc,
            "connections",
            "K",
            "After how many connections a worker ends: 1 to 1000000 [default: it doesn't end]",
        ))?
        .arg(value_option(
            alloc,
            "max-jump",
            "DAYS",
            "The most days that the clock may be ahead of the journal as it opens: 0 to 100000; 0 is any number [default: 400]",
        ))?
        .arg(flag_option(alloc, "log", "Tell each call in a line on standard error"))
}

// The server with its folder, its port, its workers and its threads.
fn plain_server<'a>(alloc: Global) -> Result<clap::Command<'a>, AllocError>
    ensures app { IfOk result (λ c. app_of c ≡ line.plain_server) }
    ensures local { IfOk result (λ c. (fields_of c).has_globals ≡ false) }
{
    let about = "Answer the requests of connections";
    let example = "Example: bus serve --data data --port 8080";
    described(alloc, "serve", about, example)
        .arg(data_option(alloc))?
        .arg(port_option(alloc))?
        .arg(value_option(
            alloc,
            "workers",
            "N",
            "How many connections are served at once: 1 to 65535 [default: 1024]",
        ))?
        .arg(value_option(
            alloc,
            "threads",
            "M",
            "In how many threads, each with its share of them: 1 to 64 [default: 1]",
        ))
}

fn drill_command<'a>(alloc: Global) -> Result<clap::Command<'a>, AllocError>
    ensures shape { IfOk result (λ c. shape_of c ≡ line.drill_command) }
    ensures local { IfOk result (λ c. (fields_of c).has_globals ≡ false) }
{
    let about = "Try generated calls on an empty namespace in memory, and tell their counts";
    let example = "Example: bus drill 2000 7";
    described(alloc, "drill", about, example)
        .arg(argument(
            alloc,
            "count",
            "COUNT",
            "How many calls to make behind the five that set the namespace up: 0 to 1000000",
        ))?
        .arg(argument(
            alloc,
            "seed",
            "SEED",
            "What the calls are drawn from: 0 to 18446744073709551615; the same seed asks the same",
        ))
}

fn data_option<'a>(alloc: Global) -> Arg<'a>
    ensures rule { rule_of result ≡ line.data_option }
    ensures local { result.global ≡ false }
{
    Arg::new(alloc, "data")
        .long("data")
        .value_name("DIR")
        .required(true)
        .help("The folder of the journal, which has to be there")
}

// By it a run or a server makes a checkpoint as it ends.
fn checkpoint_option<'a>(alloc: Global) -> Arg<'a>
    ensures rule { rule_of result ≡ line.flag_option (codes "checkpoint") }
    ensures local { result.global ≡ false }
{
    flag_option(
        alloc,
        "checkpoint",
        "At the end write the whole state to the other file, and go on with that one",
    )
}

fn port_option<'a>(alloc: Global) -> Arg<'a>
    ensures rule { rule_of result ≡ line.port_option }
    ensures local { result.global ≡ false }
{
    Arg::new(alloc, "port")
        .long("port")
        .value_name("P")
        .required(true)
        .help("The port of the server on this machine: 1 to 65535")
}

fn key_option<'a>(alloc: Global) -> Arg<'a>
    ensures rule { rule_of result ≡ line.value_option (codes "key") }
    ensures local { result.global ≡ false }
{
    value_option(
        alloc,
        "key",
        "FILE",
        "The file whose first line is the key that requests show: 16 to 256 visible characters [default: no key]",
    )
}

// A word of its own, which has to be there.
fn argument<'a>(alloc: Global, name: &'a str, value: &'a str, help: &'a str) -> Arg<'a>
    ensures rule { rule_of result ≡ line.argument name.entry.now }
    ensures local { result.global ≡ false }
{
    Arg::new(alloc, name)
        .value_name(value)
        .required(true)
        .help(help)
}

// An option with a value, which needn't be there.
fn value_option<'a>(alloc: Global, name: &'a str, value: &'a str, help: &'a str) -> Arg<'a>
    ensures rule { rule_of result ≡ line.value_option name.entry.now }
    ensures local { result.global ≡ false }
{
    Arg::new(alloc, name)
        .long(name)
        .value_name(value)
        .help(help)
}

// An option with a value, which may be there several times.
fn list_option<'a>(alloc: Global, name: &'a str, value: &'a str, help: &'a str) -> Arg<'a>
    ensures rule { rule_of result ≡ line.list_option name.entry.now }
    ensures local { result.global ≡ false }
{
    value_option(alloc, name, value, help).action(ArgAction::Append)
}

// An option without a value.
fn flag_option<'a>(alloc: Global, name: &'a str, help: &'a str) -> Arg<'a>
    ensures rule { rule_of result ≡ line.flag_option name.entry.now }
    ensures local { result.global ≡ false }
{
    Arg::new(alloc, name)
        .long(name)
        .action(ArgAction::SetTrue)
        .help(help)
}
