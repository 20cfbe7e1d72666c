// The state of a run.

/// The memory: data, heap, and the places of calls, which stand where the machine's stack begins.
#[derive(Drop)]
pub struct Space {
    pub statics: Vec<u8>,
    pub heap: Vec<u8>,
    pub places: Vec<u8>,
}

/// An active call: the position of its procedure, that of its next line, the word of each variable that
/// got one, the arguments given for its next call, where its places begin, and the variable that awaits
/// the result of the call that it made.
#[derive(Drop)]
pub struct Frame {
    pub proc: usize,
    pub at: usize,
    pub vars: Vec<Option<u32>>,
    pub given: Vec<Option<u32>>,
    pub base: u32,
    pub awaits: u32,
}

/// The input that the source gave, how much of it was read, and whether the source has ended.
#[derive(Drop)]
pub struct Input {
    pub taken: Vec<u8>,
    pub read: usize,
    pub ended: bool,
}

/// A run: the memory, the call that runs, those that wait for a result, the last one last, the units that
/// are left, and the input.
#[derive(Drop)]
pub struct Run {
    pub space: Space,
    pub frame: Frame,
    pub callers: Vec<Frame>,
    pub units: u64,
    pub input: Input,
}

/// What a step of a run came to.
#[derive(Clone, Copy)]
pub enum Went {
    /// It goes on.
    Goes,
    /// It goes on, and so many bytes from an address on are due for standard output, or for standard error.
    Says { address: u32, len: u32 },
    Warns { address: u32, len: u32 },
    /// The program ended, with a status.
    Ends(u8),
    /// The next line spends a unit, and none is left.
    Waits,
    /// The next line reads more bytes than are there, and the source hasn't ended.
    Wants(usize),
    /// A line can't be carried out.
    Faults,
    /// No memory was found.
    Memory,
}
