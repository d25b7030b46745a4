//! What lets a repeated call act once: the ids that an entity accepted within its window, and the
//! last numbered call of each client.
//!
//! It stands on the model and on `sb_index`. Contracts see a [`Window`] as the list of its ids,
//! [`Clients`] as the list of what is kept, each with a number of slots that are promised. To note an
//! id is the model's `noted`, to keep a call its `with_kept`, and both take a slot that was promised
//! before, and so can't fail; to forget a client is its `without_client`, and needs none. Whether an id
//! is known, and what is kept of a client, is found in the logarithm of their number, and so is the
//! first client behind a name, from which on they are shown. [`is_same_act`] is the model's test
//! whether two acts are equal in all their fields.
//!
//! ```text
//! let mut window = Window::new(alloc);
//! if !window.is_known(seconds, "order-17", moment) {
//!     window.reserve(1)?;                            // a slot is promised
//!     window.note(Some(seconds), id, moment);        // and taken: this can't fail
//! }
//! ```
#![tactic(auto)]

mod clients;
mod known;
mod noting;
mod same;
mod same_act;
mod same_step;
mod shown;
mod window;

pub use clients::Clients;
pub use same_act::is_same_act;
pub use window::Window;
