// Script lines that wait, and the accept of a session over REST: each has the reply to its last call, and who has gone
// takes nothing.
use crate::callers::{Caller, SEND, tries};
use std::test::Fail;

const TAKE: &[u8] =
    b"POST /$script HTTP/1.1\r\nHost: h\r\nContent-Length: 53\r\n\r\n{\"do\":\"receive\",\"from\":\"q\",\"mode\":\"delete\",\"wait\":60}";

const CREATE: &[u8] =
    b"POST /$script HTTP/1.1\r\nHost: h\r\nContent-Length: 56\r\n\r\n{\"do\":\"create-queue\",\"name\":\"s\",\"requires_session\":true}";

const ACCEPT: &[u8] =
    b"POST /$script HTTP/1.1\r\nHost: h\r\nContent-Length: 36\r\n\r\n{\"do\":\"accept\",\"from\":\"s\",\"wait\":60}";

const ACCEPT_BY_REST: &[u8] = b"POST /s/sessions/head?timeout=60 HTTP/1.1\r\nHost: h\r\n\r\n";

const SEND_TO_SESSION: &[u8] =
    b"POST /$script HTTP/1.1\r\nHost: h\r\nContent-Length: 75\r\n\r\n{\"do\":\"send\",\"to\":\"s\",\"messages\":[{\"body\":\"hi\",\"sys\":{\"SessionId\":\"one\"}}]}";

// A receive that waits for what another connection sends.
static WAITS: [Caller; 2] = [
    Caller {
        asks: 0,
        leaves: u64::MAX,
        request: TAKE,
        begins: b"HTTP/1.1 200 OK\r\nContent-Length: 115\r\n\r\n{",
        ends: b"{\"message\":{\"body\":\"hi\",\"delivery\":1,\"enqueued\":1000,\"enqueued_seq\":1,\"props\":{},\"seq\":1,\"sys\":{}},\"ok\":\"message\"}\n",
    },
    Caller {
        asks: 20,
        leaves: u64::MAX,
        request: SEND,
        begins: b"HTTP/1.1 201 Created\r\n",
        ends: b"\r\n\r\n",
    },
];

// A session that is waited for until a message comes for it.
static WAITS_FOR_SESSION: [Caller; 3] = [
    Caller {
        asks: 0,
        leaves: u64::MAX,
        request: CREATE,
        begins: b"HTTP/1.1 200 OK\r\n",
        ends: b"{\"ok\":\"done\"}\n",
    },
    Caller {
        asks: 20,
        leaves: u64::MAX,
        request: ACCEPT,
        begins: b"HTTP/1.1 200 OK\r\nContent-Length: 91\r\n\r\n{",
        ends: b"{\"id\":\"one\",\"ok\":\"session\",\"session\":\"a1b2c3d4-e5f6-0718-0000-000000000001\",\"until\":61000}\n",
    },
    Caller {
        asks: 40,
        leaves: u64::MAX,
        request: SEND_TO_SESSION,
        begins: b"HTTP/1.1 200 OK\r\n",
        ends: b"{\"numbers\":[1],\"ok\":\"sent\"}\n",
    },
];

// The same over REST.
static WAITS_BY_REST: [Caller; 3] = [
    Caller {
        asks: 0,
        leaves: u64::MAX,
        request: CREATE,
        begins: b"HTTP/1.1 200 OK\r\n",
        ends: b"{\"ok\":\"done\"}\n",
    },
    Caller {
        asks: 20,
        leaves: u64::MAX,
        request: ACCEPT_BY_REST,
        begins: b"HTTP/1.1 201 Created\r\nBrokerProperties: {\"LockedUntilUtc\":\"Thu, 01 Jan 1970 00:01:01 GMT\",\"SessionId\":\"one\"}\r\n",
        ends: b"}\r\nLocation: http://h/s/sessions/one/a1b2c3d4-e5f6-0718-0000-000000000001\r\nContent-Length: 0\r\n\r\n",
    },
    Caller {
        asks: 40,
        leaves: u64::MAX,
        request: SEND_TO_SESSION,
        begins: b"HTTP/1.1 200 OK\r\n",
        ends: b"{\"numbers\":[1],\"ok\":\"sent\"}\n",
    },
];

// One whose caller goes, a message behind it, and another that has the message.
static GONE: [Caller; 3] = [
    Caller {
        asks: 0,
        leaves: 20,
        request: TAKE,
        begins: b"HTTP/1.1 200 OK\r\nContent-Length: 15\r\nConnection: close\r\n\r\n{",
        ends: b"{\"ok\":\"empty\"}\n",
    },
    Caller {
        asks: 40,
        leaves: u64::MAX,
        request: SEND,
        begins: b"HTTP/1.1 201 Created\r\n",
        ends: b"\r\n\r\n",
    },
    Caller {
        asks: 60,
        leaves: u64::MAX,
        request: TAKE,
        begins: b"HTTP/1.1 200 OK\r\nContent-Length: 115\r\n\r\n{",
        ends: b"{\"message\":{\"body\":\"hi\",\"delivery\":1,\"enqueued\":1000,\"enqueued_seq\":1,\"props\":{},\"seq\":1,\"sys\":{}},\"ok\":\"message\"}\n",
    },
];

#[test]
fn a_line_waits_for_a_message(rt: HostRuntime) -> Result<(), Fail> {
    tries(&rt, rt.alloc(), &WAITS, 3)
}

#[test]
fn a_line_waits_for_a_session(rt: HostRuntime) -> Result<(), Fail> {
    tries(&rt, rt.alloc(), &WAITS_FOR_SESSION, 3)
}

#[test]
fn an_accept_waits_for_a_session(rt: HostRuntime) -> Result<(), Fail> {
    tries(&rt, rt.alloc(), &WAITS_BY_REST, 3)
}

#[test]
fn a_line_whose_caller_has_gone_takes_nothing(rt: HostRuntime) -> Result<(), Fail> {
    tries(&rt, rt.alloc(), &GONE, 3)
}
