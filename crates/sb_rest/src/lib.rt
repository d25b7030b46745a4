//! Requests of HTTP as calls of the namespace, and the answers to them as responses, as the REST
//! interface of Service Bus has them (Microsoft Learn, Service Bus REST API reference, "Service Bus
//! runtime REST").
//!
//! `specs/Calls` says which request asks for which call and, where it asks for none, why: who made it
//! (`specs/Callers`), no route, another method, or the first key at fault, by its place in path, query,
//! headers and body. `call_of` gives exactly that, or want of memory. `specs/Responses` says which response a call gets that is
//! answered so, and `specs/Sights` which one an operator's path gets, with the numbers of the server (`sb_numbers`);
//! `response_of` gives that. It takes the route from `sb_routes`, the request from
//! `sb_http`, and what script lines spell alike (tokens, system texts, times to live, properties,
//! refusals) from `sb_lines`. `docs/REST.md` has each call with its answers.
//!
//! ```rust
//! let response = match call_of(alloc, &routes, &access, &request) {
//!     Ok(wanted) => {
//!         let (host, json) = (host_of(&request), wants_json(&request));
//!         response_of(alloc, wanted.sight, &wanted.call, answer, host, json, &numbers)?
//!     }
//!     Err(fault) => fault_response(alloc, fault)?,
//! };
//! Ok(write_response(alloc, &response)?)
//! ```
#![tactic(auto)]

mod access;
mod act;
mod asked;
mod batch;
mod broker;
mod call;
mod disposition;
mod draft;
mod entities;
mod escape;
mod exposition;
mod field;
mod form;
mod header;
mod laws;
mod lifetime;
mod location;
mod media;
mod metrics;
mod moment;
mod page;
mod path;
mod peeks;
mod query;
mod repeat;
mod reserved;
mod response;
mod server_numbers;
mod session;
mod shown;
mod sight;
mod timeout;
mod value;
mod worked;

pub use access::Access;
pub use asked::Sight;
pub use call::{RestFault, Wanted, call_of};
pub use form::wants_json;
pub use laws::{
    escaped_is_ascii, foreign_is_no_call, health_is_open, keyless_is_no_call, methods_are_told,
};
pub use media::has_media_type;
pub use response::{fault_response, host_of, line_response};
pub use sight::{response_of, shows_numbers};
pub use worked::{
    worked_callers, worked_calls, worked_dispositions, worked_forms, worked_numbers, worked_parts,
    worked_responses, worked_server_numbers, worked_session_responses, worked_sessions,
    worked_together,
};
