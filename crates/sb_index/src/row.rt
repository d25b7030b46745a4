// What stands in an index.

/// A row: a value under a key, with a mark and the moment at which it is due.
///
/// One that is never due has `u64::MAX` there, the last moment that there is.
#[derive(Clone, Copy)]
pub struct Row {
    pub key: u128,
    pub value: u64,
    pub marked: bool,
    pub due: u64,
}
