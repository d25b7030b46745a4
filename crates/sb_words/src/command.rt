// The commands, what a form of the words names, and what is wrong with words.
/// What a call of the program is to do.
#[derive(Clone, Copy, PartialEq, Eq)]
pub enum Command {
    /// Answer the script lines of the input.
    Run,
    /// Tell the numbers of the namespace.
    Check,
    /// Have a server answer the script lines of the input.
    Client,
    /// Answer the requests of connections.
    Serve,
    /// Try generated calls on an empty namespace in memory.
    Drill,
}

/// What a form of the words names. Where the command has no such option a number is 0, a text or a
/// list empty, and a flag false.
#[derive(Drop)]
pub struct Form<'w> {
    /// What is to be done.
    pub command: Command,
    /// The folder of the two journal files.
    pub folder: &'w str,
    /// The port that is listened at or connected to.
    pub port: u16,
    /// How many connections are served at once.
    pub workers: u16,
    /// In how many threads, 1 to 64; 0 where the words name no number.
    pub threads: u16,
    /// After how many connections a worker ends; 2^64 - 1 where the words name no number, which is no
    /// end, as no worker takes so many.
    pub connections: u64,
    /// The most days, up to 100,000, that time may jump; at 0 it may jump by any number.
    pub max_jump: u32,
    /// For how many seconds, 1 to 86,400, a request may take until it is whole, or a response until it is
    /// taken.
    pub request_time: u32,
    /// For how many seconds, 1 to 86,400, a connection is kept without a request.
    pub idle_time: u32,
    /// The names, up to 8, by which a server lets itself be called beside those of this machine; with
    /// none it doesn't look at the name.
    pub hosts: Vec<&'w str>,
    /// The file whose first line is the key that each request shows; empty where there is none.
    pub key_file: &'w str,
    /// For how many seconds, 1 to 7,200, a client waits for a server that says nothing.
    pub patience: u16,
    /// A check is to write nothing.
    pub look: bool,
    /// A run or a server is to make a checkpoint at its end.
    pub checkpoint: bool,
    /// A server makes a checkpoint once the records behind the last one take more than so many bytes, up to
    /// 2^62; at 0 it makes none.
    pub checkpoint_after: u64,
    /// A server is to tell each call on standard error.
    pub log: bool,
    /// How many calls a drill makes behind its setup, up to 1,000,000.
    pub count: u32,
    /// What they are drawn from.
    pub seed: u64,
}

/// Why there is no form.
#[derive(Clone, Copy, Drop, PartialEq, Eq)]
pub enum WordsFault {
    /// The words name no command.
    BadWords,
    /// Memory was wanting.
    OutOfMemory,
}
