// What an act is on: the entity, who receives it, the copy under a lock, the filter of a text.

pub mod claims;
pub mod heads;
pub mod holding;
pub mod leases;
pub mod reading;
pub mod via;
