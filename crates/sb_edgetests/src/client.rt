// What no contract says: that memory is found.
use sb_client::{ClientEnding, run_script};
use sb_outside::{Link, LinkFault, MemSink, SureSource};
use std::alloc::Global;
use std::test::Fail;

// A link that answers each request alike, and keeps them.
#[derive(Drop)]
struct AlikeLink {
    reply: Vec<u8>,
    asked: Vec<u8>,
}

impl Link for AlikeLink {
    ghost use Rattle.std.specs.Prelude.{None};

    ghost told = { λ _. None };

    ghost count = { λ _. 0 };

    fn exchange(&mut self, request: &[u8], reply: &mut Vec<u8>) -> Result<(), LinkFault> {
        reply.clear();
        let Ok(()) = reply.extend_from_slice(&self.reply) else {
            return Err(LinkFault::OutOfMemory);
        };
        let Ok(()) = self.asked.extend_from_slice(request) else {
            return Err(LinkFault::OutOfMemory);
        };
        Ok(())
    }
}

// The ending for this input, with this key, over a link and into a sink.
fn run_over(
    alloc: Global,
    key: &[u8],
    link: &mut AlikeLink,
    input: &[u8],
    sink: &mut MemSink,
) -> Result<ClientEnding, Fail> {
    let mut source = SureSource::new(input.to_vec(alloc)?, 5);
    let ending = run_script(alloc, key, link, &mut source, sink);
    drop(source);
    Ok(ending)
}

// The same with what is written.
fn run_into(
    alloc: Global,
    key: &[u8],
    link: &mut AlikeLink,
    input: &[u8],
) -> Result<(ClientEnding, MemSink), Fail> {
    let mut sink = MemSink::new(alloc, 64, Vec::new(alloc))?;
    match run_over(alloc, key, link, input, &mut sink) {
        Ok(ending) => Ok((ending, sink)),
        Err(fail) => {
            drop(sink);
            Err(fail)
        }
    }
}

// What was asked over a link, which is let go.
fn asked_over(link: AlikeLink) -> Vec<u8> {
    let AlikeLink { reply, asked } = link;
    drop(reply);
    asked
}

// The ending, what was written and what was asked for this input, with this key, where each request gets
// this reply.
fn run_on(
    alloc: Global,
    key: &[u8],
    input: &[u8],
    reply: &[u8],
) -> Result<(ClientEnding, MemSink, Vec<u8>), Fail> {
    let reply = reply.to_vec(alloc)?;
    let mut link = AlikeLink {
        reply,
        asked: Vec::new(alloc),
    };
    let ran = run_into(alloc, key, &mut link, input);
    let asked = asked_over(link);
    match ran {
        Ok((ending, sink)) => Ok((ending, sink, asked)),
        Err(fail) => {
            drop(asked);
            Err(fail)
        }
    }
}

// The ending alone.
fn ending_of(alloc: Global, reply: &[u8]) -> Result<ClientEnding, Fail> {
    let (ending, sink, asked) = run_on(alloc, b"", b"{}", reply)?;
    drop(sink);
    drop(asked);
    Ok(ending)
}

#[test]
fn writes_the_reply_lines(rt: HostRuntime) -> Result<(), Fail> {
    let reply = b"HTTP/1.1 200 OK\r\nContent-Length: 14\r\n\r\n{\"ok\":\"done\"}\n";
    let (ending, sink, asked) = run_on(rt.alloc(), b"", b"{}\n \t\r\n[]", reply)?;
    assert!(rt; ending == ClientEnding::Done { refused: false });
    assert_eq!(rt;
        sink.bytes(),
        b"{\"ok\":\"done\"}\n{\"ok\":\"done\"}\n".as_slice()
    );
    drop(sink);
    let wanted =
        b"POST /$script HTTP/1.1\r\nHost: localhost\r\nContent-Length: 2\r\nConnection: close\r\n\r\n{}POST /$script HTTP/1.1\r\nHost: localhost\r\nContent-Length: 2\r\nConnection: close\r\n\r\n[]";
    assert_eq!(rt; asked.as_slice(), wanted.as_slice());
    Ok(())
}

#[test]
fn shows_its_key(rt: HostRuntime) -> Result<(), Fail> {
    let reply = b"HTTP/1.1 200 OK\r\nContent-Length: 14\r\n\r\n{\"ok\":\"done\"}\n";
    let (ending, sink, asked) = run_on(rt.alloc(), b"0123456789abcdef", b"{}", reply)?;
    drop(sink);
    assert!(rt; ending == ClientEnding::Done { refused: false });
    let wanted =
        b"POST /$script HTTP/1.1\r\nHost: localhost\r\nContent-Length: 2\r\nConnection: close\r\nAuthorization: Bearer 0123456789abcdef\r\n\r\n{}";
    assert_eq!(rt; asked.as_slice(), wanted.as_slice());
    Ok(())
}

static ENDINGS: [(&[u8], ClientEnding); 8] = [
    (
        b"HTTP/1.1 200 OK\r\nContent-Length: 28\r\n\r\n{\"refused\":\"EntityNotFound\"}",
        ClientEnding::BadReply,
    ),
    (
        b"HTTP/1.1 200 OK\r\nContent-Length: 23\r\n\r\n{\"refused\":\"LockLost\"}\n",
        ClientEnding::Done { refused: true },
    ),
    (
        b"HTTP/1.1 200 OK\r\nContent-Length: 24\r\n\r\n{\"refused\":\"DiskFault\"}\n",
        ClientEnding::Done { refused: true },
    ),
    (
        b"HTTP/1.1 200 OK\r\nContent-Length: 15\r\n\r\n{\"ok\": \"done\"}\n",
        ClientEnding::BadReply,
    ),
    (
        b"HTTP/1.1 404 Not Found\r\nContent-Length: 14\r\n\r\n{\"ok\":\"done\"}\n",
        ClientEnding::BadReply,
    ),
    (
        b"HTTP/1.1 401 Unauthorized\r\nContent-Length: 0\r\n\r\n",
        ClientEnding::BadReply,
    ),
    (
        b"HTTP/1.1 403 Forbidden\r\nContent-Length: 0\r\n\r\n",
        ClientEnding::BadReply,
    ),
    (b"x", ClientEnding::BadReply),
];

#[test]
fn says_how_it_ended(rt: HostRuntime) -> Result<(), Fail> {
    for (reply, wanted) in &ENDINGS {
        assert!(rt; ending_of(rt.alloc(), reply)? == *wanted);
    }
    Ok(())
}
