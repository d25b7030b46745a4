// What no contract says: the texts of help, and of what is wrong with words.
use sb_words::{Command, Form, asked_text, fault_text, read_form};
use std::alloc::{AllocError, Global};
use std::process::Abort;
use std::test::Fail;

// The words of a line, between its spaces.
fn words_of(alloc: Global, line: &str) -> Result<Vec<&str>, AllocError> {
    let mut words = Vec::new(alloc);
    for word in line.split(' ') {
        words.push(word)?;
    }
    Ok(words)
}

// What is wrong with the words of a line.
fn wrong_with(alloc: Global, line: &str) -> Result<String, Fail> {
    let words = words_of(alloc, line)?;
    let text = fault_text(alloc, &words);
    drop(words);
    Ok(text?.ok_or("a form")?)
}

// The help that the words of a line ask for.
fn help_for(alloc: Global, line: &str) -> Result<String, Fail> {
    let words = words_of(alloc, line)?;
    let text = asked_text(alloc, &words);
    drop(words);
    Ok(text?.ok_or("no help")?)
}

static WRONG_LINES: [(&str, &str); 17] = [
    (
        "serve --data=a --port=80800",
        "--port takes a number from 1 to 65535",
    ),
    (
        "serve --data=a --port=80 --workers=65536",
        "--workers takes a number from 1 to 65535",
    ),
    (
        "serve --data=a --port=80 --request-time=0",
        "--request-time takes a number from 1 to 86400",
    ),
    (
        "serve --data=a --port=80 --idle-time=86401",
        "--idle-time takes a number from 1 to 86400",
    ),
    (
        "serve --data=a --port=80 --threads=65",
        "--threads takes a number from 1 to 64",
    ),
    (
        "serve --data=a --port=80 --host=",
        "--host takes names of 1 to 255 visible characters, up to 8 times",
    ),
    (
        "run --data=a --max-jump=07",
        "--max-jump takes a number from 0 to 100000",
    ),
    (
        "client --port=80 --patience=0",
        "--patience takes a number from 1 to 7200",
    ),
    ("client --port=80 --key=", "--key takes the name of a file"),
    (
        "serve --data=a --port=80 --checkpoint-after=-1",
        "--checkpoint-after takes a number from 0 to 4611686018427387904",
    ),
    ("run --dat a", "unexpected argument '--dat' found"),
    ("drll", "unrecognized subcommand 'drll'"),
    (
        "drill",
        "the following required arguments were not provided: <COUNT> <SEED>",
    ),
    ("drill 1000001 7", "COUNT takes a number from 0 to 1000000"),
    (
        "drill 5 18446744073709551616",
        "SEED takes a number from 0 to 18446744073709551615",
    ),
    ("drill 5 7 9", "unexpected argument '9' found"),
    (
        "client",
        "the following required arguments were not provided: --port <P>",
    ),
];

#[test]
fn says_what_is_wrong(rt: HostRuntime) -> Result<(), Fail> {
    for (line, wanted) in &WRONG_LINES {
        let text = wrong_with(rt.alloc(), line)?;
        assert_eq!(rt; text.as_str(), *wanted);
    }
    Ok(())
}

static HELPS: [(&str, &str); 14] = [
    ("help", "Usage: bus <COMMAND>"),
    ("help serve", "Usage: bus serve"),
    ("serve --help", "[default: 400]"),
    ("help client", "1 to 7200 [default: 120]"),
    ("run -h", "Example: bus run"),
    ("help check", "--look"),
    ("help serve", "--log"),
    ("help serve", "[default: 60]"),
    ("help serve", "[default: 600]"),
    ("help serve", "[default: 268435456]"),
    ("help run", "--checkpoint"),
    ("help drill", "0 to 1000000"),
    ("drill -h", "Example: bus drill 2000 7"),
    ("--version", "bus 0.1.0"),
];

#[test]
fn helps_with_each_command(rt: HostRuntime) -> Result<(), Fail> {
    for (line, wanted) in &HELPS {
        let text = help_for(rt.alloc(), line)?;
        assert!(rt; text.as_str().contains(*wanted), "{text}");
    }
    Ok(())
}

#[test]
fn reads_who_may_call(rt: HostRuntime) -> Result<(), Fail> {
    let line = "serve --data=a --port=80 --host=x --host y --key=k";
    let words = words_of(rt.alloc(), line)?;
    let Ok(form) = read_form(rt.alloc(), &words) else {
        panic!(rt; "no form")
    };
    says_who_may_call(&rt, &form);
    drop(form);
    drop(words);
    Ok(())
}

fn says_who_may_call(rt: &impl Abort, form: &Form<'_>) {
    assert!(rt; form.command == Command::Serve);
    assert!(rt; form.hosts.len() == 2);
    assert_eq!(rt;
        (form.key_file, form.max_jump, form.patience),
        ("k", 400, 0)
    );
    assert_eq!(rt; (form.request_time, form.idle_time), (60, 600));
}
