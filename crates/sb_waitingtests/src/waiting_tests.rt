// Several connections at once: a receive that waits gets the message that is sent meanwhile, but where its
// caller has gone the message stays.
use crate::callers::{Caller, RECEIVE, SEND, tries};
use std::test::Fail;

const TAKE: &[u8] = b"DELETE /q/messages/head HTTP/1.1\r\nHost: h\r\n\r\n";

// A receive that waits, and a send.
static WAITS: [Caller; 2] = [
    Caller {
        asks: 0,
        leaves: u64::MAX,
        request: RECEIVE,
        begins: b"HTTP/1.1 201 Created\r\n",
        ends: b"\r\n\r\nhi",
    },
    Caller {
        asks: 1,
        leaves: u64::MAX,
        request: SEND,
        begins: b"HTTP/1.1 201 Created\r\n",
        ends: b"\r\n\r\n",
    },
];

#[test]
fn two_connections_at_once(rt: HostRuntime) -> Result<(), Fail> {
    tries(&rt, rt.alloc(), &WAITS, 2)
}

// The same where each has a thread of its own.
#[test]
fn two_connections_in_two_threads(rt: HostRuntime) -> Result<(), Fail> {
    tries(&rt, rt.alloc(), &WAITS, 1)
}

// A receive whose caller goes, a send behind it, and another receive.
static GOES: [Caller; 3] = [
    Caller {
        asks: 0,
        leaves: 20,
        request: TAKE,
        begins: b"HTTP/1.1 204 No Content\r\n",
        ends: b"Connection: close\r\n\r\n",
    },
    Caller {
        asks: 40,
        leaves: u64::MAX,
        request: SEND,
        begins: b"HTTP/1.1 201 Created\r\n",
        ends: b"\r\n\r\n",
    },
    Caller {
        asks: 60,
        leaves: u64::MAX,
        request: TAKE,
        begins: b"HTTP/1.1 200 OK\r\n",
        ends: b"\r\n\r\nhi",
    },
];

// A caller ends in the midst of its wait, then a message is sent: it stands in the queue.
#[test]
fn who_has_gone_takes_nothing(rt: HostRuntime) -> Result<(), Fail> {
    tries(&rt, rt.alloc(), &GOES, 3)
}
