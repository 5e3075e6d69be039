/// Why a call ended early and is to be made again. Each cause is an event of that very call.
#[derive(Clone, Copy, PartialEq, Eq, Debug)]
pub enum Again {
    /// The node's version word was loaded, locked.
    Locked { node: u64, word: u64 },
    /// The node's version word was `first` at one load or as it was handed in, and `second` later.
    Moved { node: u64, first: u64, second: u64 },
    /// The walk made this many hops without its target.
    Hops { count: u64 },
    /// None of the caller's log lines was empty.
    LogFull,
    /// No node was free.
    NoFree,
    /// The target was full and has been split; the call changed no name.
    NeedsSplit { node: u64 },
    /// The updater lock held this word.
    Held { word: u64 },
    /// Two loads of the epoch differ.
    Epoch { first: u64, second: u64 },
}
