// Several script lines of one request, called one after another.
use crate::body::LineAsk;
use sb_model::Rows;
use std::alloc::Global;
use std::collections::VecDeque;

/// Several script lines of one request: those that weren't called yet, the lines of the replies to the
/// others, whether one of these tells that the namespace acts no more, and whether the request asks for
/// the connection's end.
#[derive(Drop)]
pub(crate) struct Script {
    pub(crate) left: VecDeque<LineAsk>,
    pub(crate) text: Vec<u8>,
    pub(crate) stopped: bool,
    pub(crate) closes: bool,
}
