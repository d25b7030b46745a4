// Telling an operator on standard error what a server comes to.
use sb_app::{Notice, Watcher};
use sb_outside::{Clock, SystemClock};

/// Writes a line on standard error for each notice but that of the end; a line that can't be written is
/// lost.
#[derive(Drop)]
pub struct Printing<'r> {
    rt: &'r HostRuntime,
    clock: &'r SystemClock<&'r HostRuntime>,
    // the port at which the server listens
    port: u16,
    // when this was made, in ms since 1970
    began_ms: u64,
}

impl<'r> Printing<'r> {
    /// A watcher that writes with this runtime of a server at this port, which is about to be opened.
    pub fn new(rt: &'r HostRuntime, clock: &'r SystemClock<&'r HostRuntime>, port: u16) -> Self {
        Printing {
            rt,
            clock,
            port,
            began_ms: clock.now(),
        }
    }
}

impl Watcher for Printing<'_> {
    fn tell(&self, notice: Notice) {
        let (rt, port) = (self.rt, self.port);
        let _ = match notice {
            Notice::Opened { records } => {
                let passed_ms = self.clock.now().saturating_sub(self.began_ms);
                let (seconds, rest_ms) = (passed_ms / 1000, passed_ms % 1000);
                eprintln!(rt; "bus: opened {records} records in {seconds}.{rest_ms:03} s")
            }
            Notice::Ahead {
                moment_ms,
                reading_ms,
            } => {
                let ahead_ms = moment_ms.saturating_sub(reading_ms);
                eprintln!(rt;
                    "bus: the namespace's time, {moment_ms} ms, is {ahead_ms} ms ahead of the clock, {reading_ms} ms; it stands still until the clock has caught up"
                )
            }
            Notice::Serves => eprintln!(rt; "bus: listens on 127.0.0.1:{port}"),
            // `outside` says how a server ended.
            Notice::Ended { .. } => Ok(()),
        };
    }
}
