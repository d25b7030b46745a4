// Conversations over a node: bytes in pieces, requests, calls, steps, responses.
ghost use Rattle.sb_machine.specs.Ordered.{IsActInOrder};

use crate::bytes::{http_bytes, shown};
use crate::http::{request_of, response_bytes};
use crate::journals::Journals;
use crate::outcome::{Outcome, differing, no_such_key};
use crate::requests::found_in;
use crate::server::server_numbers;
use crate::table::{Case, Line};
use anyhow::{Context, Result, bail, ensure};
use sb_http::{Incoming, Request, Response, write_response};
use sb_lines::{Form, Line as ScriptLine, LineFault, read_line, refusal_of, reply_line};
use sb_machine::{Answer, Call, Refusal};
use sb_model::Text;
use sb_node::Node;
use sb_outside::MemDisk;
use sb_rest::{RestFault, Sight, fault_response, host_of, line_response, response_of, wants_json};
use sb_routes::Routes;
use std::alloc::{AllocError, Global};

const SALT: u64 = 0xa1b2_c3d4_e5f6_0718;

// The sizes of the pieces in which the requests come, where a case names none.
const SIZES: [usize; 3] = [1, 7, 1_000_000];

// A request at a moment, and its response, with the line that has it.
#[derive(Drop)]
struct Exchange<'a> {
    moment: u64,
    request: Vec<u8>,
    response: Vec<u8>,
    line: Line<'a>,
}

#[derive(Drop)]
struct Conversation<'a> {
    exchanges: Vec<Exchange<'a>>,
    // What disk a holds as it begins, and the calls of it that fail.
    disk: Vec<u8>,
    failing: Vec<u64>,
    // What comes behind the last request, and is none.
    cut: Vec<u8>,
    sizes: Vec<usize>,
}

impl<'a> Conversation<'a> {
    fn new(alloc: Global) -> Result<Conversation<'a>, AllocError> {
        Ok(Conversation {
            exchanges: Vec::new(alloc),
            disk: Vec::new(alloc),
            failing: Vec::new(alloc),
            cut: Vec::new(alloc),
            sizes: SIZES.to_vec(alloc)?,
        })
    }

    fn take_all(&mut self, alloc: Global, lines: &[Line<'a>], journals: &Journals) -> Result<()> {
        let mut asked = "";
        for line in lines {
            let line = *line;
            match line.key {
                ">" => asked = line.value,
                _ => self.take(alloc, asked, line, journals)?,
            }
        }
        Ok(())
    }

    // Takes a line of the case, behind what was asked last.
    fn take(
        &mut self,
        alloc: Global,
        asked: &str,
        line: Line<'a>,
        journals: &Journals,
    ) -> Result<()> {
        match line.key {
            "<" => self.exchanges.push(exchange_of(alloc, asked, line)?)?,
            "over" => self.disk = journals.left_by(line.value)?.to_vec(alloc)?,
            "fails" => self.failing.push(line.value.parse::<u64>()?)?,
            "cut" => self.cut = http_bytes(alloc, line.value)?,
            "pieces" => self.sizes = sizes_of(alloc, line.value)?,
            _ => return Err(no_such_key(line)),
        }
        Ok(())
    }
}

fn exchange_of<'a>(alloc: Global, asked: &str, line: Line<'a>) -> Result<Exchange<'a>> {
    let (moment, request) = asked
        .split_once(' ')
        .context("a request has its moment before it")?;
    Ok(Exchange {
        moment: moment.parse::<u64>()?,
        request: request_of(alloc, request)?,
        response: response_bytes(alloc, line.value)?,
        line,
    })
}

fn sizes_of(alloc: Global, words: &str) -> Result<Vec<usize>> {
    let mut sizes = Vec::new(alloc);
    for word in words.split(' ') {
        sizes.push(word.parse::<usize>()?)?;
    }
    Ok(sizes)
}

fn conversation_of<'a>(
    alloc: Global,
    case: &Case<'a>,
    journals: &Journals,
) -> Result<Conversation<'a>> {
    let mut read = Conversation::new(alloc)?;
    match read.take_all(alloc, &case.lines, journals) {
        Ok(()) => Ok(read),
        Err(error) => {
            drop(read);
            Err(error)
        }
    }
}

// The answer to a script line, at this moment, and the form in which it is shown.
fn script_answer(
    alloc: Global,
    node: &mut Node<MemDisk>,
    body: &[u8],
    moment: u64,
) -> Result<(Form, Answer), AllocError> {
    let Ok(line) = std::str::from_utf8(body) else {
        let key = Text::of(alloc, "")?;
        return Ok((Form::Plain, Err(Refusal::BadCall { key })));
    };
    match read_line(alloc, line) {
        Ok(ScriptLine { timed, form, .. }) => {
            let answer = node.step(moment, &timed.call);
            drop(timed);
            Ok((form, answer))
        }
        Err(LineFault::OutOfMemory) => Err(AllocError),
        Err(fault) => Ok((Form::Plain, Err(refusal_of(fault)))),
    }
}

fn response_to_script(
    alloc: Global,
    node: &mut Node<MemDisk>,
    body: &[u8],
    moment: u64,
) -> Result<Response, AllocError> {
    let (form, answer) = script_answer(alloc, node, body, moment)?;
    let line = reply_line(alloc, form, &answer);
    drop(answer);
    Ok(line_response(alloc, line?))
}

fn response_to_call(
    alloc: Global,
    node: &mut Node<MemDisk>,
    sight: Sight,
    call: &Call,
    host: &[u8],
    json: bool,
    moment: u64,
) -> Result<Response, AllocError>
    requires order { IsActInOrder call.now.act }
{
    let numbers = server_numbers(alloc)?;
    let answer = node.step(moment, call);
    let response = response_of(alloc, sight, call, &answer, host, json, &numbers);
    drop(answer);
    drop(numbers);
    response
}

fn response_to(
    alloc: Global,
    routes: &Routes,
    node: &mut Node<MemDisk>,
    request: &Request,
    moment: u64,
) -> Result<Response, AllocError> {
    match found_in(alloc, routes, request) {
        Ok(wanted) => {
            let host = host_of(request);
            let json = wants_json(request);
            let sight = wanted.sight;
            let response = response_to_call(alloc, node, sight, &wanted.call, host, json, moment);
            drop(wanted);
            response
        }
        Err(RestFault::Script) => response_to_script(alloc, node, request.body, moment),
        Err(fault) => fault_response(alloc, fault),
    }
}

// What came in place of the response to a request, if it isn't that.
fn tried(
    alloc: Global,
    routes: &Routes,
    node: &mut Node<MemDisk>,
    request: &Request,
    exchange: &Exchange<'_>,
) -> Result<Option<Outcome>, AllocError> {
    let response = response_to(alloc, routes, node, request, exchange.moment)?;
    let differs = other(alloc, &response, exchange);
    drop(response);
    differs
}

fn other(
    alloc: Global,
    response: &Response,
    exchange: &Exchange<'_>,
) -> Result<Option<Outcome>, AllocError> {
    let came = write_response(alloc, response)?;
    if came.as_slice() == exchange.response.as_slice() {
        return Ok(None);
    }
    let came = shown(alloc, &came)?;
    Ok(Some(differing(alloc, exchange.line, came.as_str())?))
}

fn stream_of(alloc: Global, conversation: &Conversation<'_>) -> Result<Vec<u8>, AllocError> {
    let mut stream = Vec::new(alloc);
    for exchange in &conversation.exchanges {
        stream.extend_from_slice(&exchange.request)?;
    }
    stream.extend_from_slice(&conversation.cut)?;
    Ok(stream)
}

// Answers the requests that have come whole, with those of the exchanges that stand at a place and behind
// it, and sets the place behind them; what came in place of a response that isn't so.
fn answer_whole(
    alloc: Global,
    routes: &Routes,
    node: &mut Node<MemDisk>,
    incoming: &mut Incoming,
    exchanges: &[Exchange<'_>],
    place: &mut usize,
    most: usize,
) -> Result<Option<Outcome>> {
    for _ in 0..=most {
        let Ok(next) = incoming.next_request() else {
            bail!("no request of HTTP");
        };
        let Some(request) = next else {
            break;
        };
        let exchange = exchanges.get(*place).context("one request more")?;
        *place = place.saturating_add(1);
        if let Some(differs) = tried(alloc, routes, node, &request, exchange)? {
            return Ok(Some(differs));
        }
    }
    Ok(None)
}

// Feeds a stream in pieces of so many bytes.
fn feed(
    alloc: Global,
    routes: &Routes,
    node: &mut Node<MemDisk>,
    incoming: &mut Incoming,
    conversation: &Conversation<'_>,
    stream: &[u8],
    size: usize,
) -> Result<Outcome> {
    let exchanges = conversation.exchanges.as_slice();
    let mut place: usize = 0;
    for piece in stream.chunks(size.max(1)) {
        ensure!(incoming.feed(piece) == piece.len(), "a piece isn't taken");
        if let Some(differs) = answer_whole(
            alloc,
            routes,
            node,
            incoming,
            exchanges,
            &mut place,
            piece.len(),
        )? {
            return Ok(differs);
        }
    }
    ensure!(place == exchanges.len(), "a request less");
    ensure!(
        incoming.left() == conversation.cut.len(),
        "other bytes are left"
    );
    Ok(Outcome::Holds(exchanges.len() as u64))
}

fn feed_new(
    alloc: Global,
    routes: &Routes,
    node: &mut Node<MemDisk>,
    conversation: &Conversation<'_>,
    stream: &[u8],
    size: usize,
) -> Result<Outcome> {
    let mut incoming = Incoming::new(alloc)?;
    let outcome = feed(
        alloc,
        routes,
        node,
        &mut incoming,
        conversation,
        stream,
        size,
    );
    drop(incoming);
    outcome
}

// Feeds the requests, one behind the other, in pieces of so many bytes, and looks at each response.
fn converse(
    alloc: Global,
    routes: &Routes,
    node: &mut Node<MemDisk>,
    conversation: &Conversation<'_>,
    size: usize,
) -> Result<Outcome> {
    let stream = stream_of(alloc, conversation)?;
    let outcome = feed_new(alloc, routes, node, conversation, &stream, size);
    drop(stream);
    outcome
}

fn disk_of(alloc: Global, bytes: &[u8], failing: &[u64]) -> Result<MemDisk, AllocError> {
    let bytes = bytes.to_vec(alloc)?;
    let failing = failing.to_vec(alloc)?;
    MemDisk::new(alloc, bytes, failing)
}

// A node over a disk that holds what a conversation begins with.
fn node_of(alloc: Global, conversation: &Conversation<'_>) -> Result<Node<MemDisk>> {
    let disk_a = disk_of(alloc, &conversation.disk, &conversation.failing)?;
    match disk_of(alloc, &[], &[]) {
        Ok(disk_b) => opened(alloc, disk_a, disk_b),
        Err(error) => {
            drop(disk_a);
            Err(error.into())
        }
    }
}

fn opened(alloc: Global, disk_a: MemDisk, disk_b: MemDisk) -> Result<Node<MemDisk>> {
    match Node::open(alloc, disk_a, disk_b, SALT) {
        Ok(node) => Ok(node),
        Err(fault) => {
            drop(fault);
            bail!("the node doesn't open")
        }
    }
}

// What disk a holds of a node that is closed.
fn left_by(alloc: Global, node: Node<MemDisk>) -> Result<Vec<u8>, AllocError> {
    let (disk_a, disk_b) = node.close();
    drop(disk_b);
    let left = disk_a.bytes().to_vec(alloc);
    drop(disk_a);
    left
}

// Tries a conversation in pieces of so many bytes, and keeps what it leaves where it holds.
fn try_size(
    alloc: Global,
    routes: &Routes,
    conversation: &Conversation<'_>,
    size: usize,
    case: &str,
    journals: &mut Journals,
) -> Result<Outcome> {
    let mut node = node_of(alloc, conversation)?;
    let came = converse(alloc, routes, &mut node, conversation, size);
    let left = left_by(alloc, node);
    let outcome = came?;
    if let Outcome::Holds(_) = outcome {
        journals.keep(alloc, case, left?, Vec::new(alloc))?;
    }
    Ok(outcome)
}

fn try_sizes(
    alloc: Global,
    routes: &Routes,
    conversation: &Conversation<'_>,
    case: &str,
    journals: &mut Journals,
) -> Result<Outcome> {
    for size in &conversation.sizes {
        let outcome = try_size(alloc, routes, conversation, *size, case, journals)?;
        if let Outcome::Differs(_) = outcome {
            return Ok(outcome);
        }
    }
    Ok(Outcome::Holds(conversation.exchanges.len() as u64))
}

fn try_read(
    alloc: Global,
    conversation: &Conversation<'_>,
    case: &str,
    journals: &mut Journals,
) -> Result<Outcome> {
    let routes = Routes::new(alloc)?;
    let outcome = try_sizes(alloc, &routes, conversation, case, journals);
    drop(routes);
    outcome
}

/// Tries a case of requests at their moments and of their responses, over a disk which holds what the
/// case that `over` names left, or nothing, and which fails at the call of `fails`. The requests come in
/// pieces of each of the sizes of `pieces` in turn, and behind them what `cut` has, which is no whole one.
pub fn try_conversation(
    alloc: Global,
    case: &Case<'_>,
    journals: &mut Journals,
) -> Result<Outcome> {
    let conversation = conversation_of(alloc, case, journals)?;
    let outcome = try_read(alloc, &conversation, case.name, journals);
    drop(conversation);
    outcome
}
