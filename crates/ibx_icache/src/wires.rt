use ibx_isa::{Alerts, Req, Rsp};

/// What the word port is handed in a cycle.
#[derive(Clone, Copy, Debug)]
pub struct CacheIn {
    /// The byte address of the word that is requested in this cycle. It is taken up where no request is outstanding
    /// after this cycle's answer.
    pub request: Option<u32>,
    /// Whether the cache is turned on, as the events before this cycle left it.
    pub enable: bool,
    /// Whether a FENCE.I retires in this cycle.
    pub fence: bool,
    /// The answer of the instruction port of the bus.
    pub rsp: Rsp,
    /// The tag words, of 28 bits, of both ways at the address looked up.
    pub tags: [u64; 2],
    /// The data words, of 39 bits, of both ways at the address looked up.
    pub lanes: [u64; 2],
    /// Whether this cycle's request on the bus is granted.
    pub granted: bool,
}

/// What the word port drives in a cycle.
#[derive(Clone, Copy, Debug, PartialEq, Eq)]
pub struct CacheOut {
    /// The request on the instruction port of the bus: a fetch of a word, or no request.
    pub bus: Req,
    /// Bit w is set where a line is stored in way w; else 0.
    pub ways: u8,
    /// The set, 0 to 255, that is written, else 0.
    pub set: u8,
    /// The tag word, of 28 bits, of the line that is stored, else 0.
    pub tag: u64,
    /// Its first data word, of 39 bits, else 0.
    pub line0: u64,
    /// Its second data word, of 39 bits, else 0.
    pub line1: u64,
    /// Whether the walk empties the set: both of its tag words become the codeword of 0.
    pub clear: bool,
    /// MINOR where a lookup met a flipped bit, and BUS where an answer of the bus has one.
    pub alerts: Alerts,
}
