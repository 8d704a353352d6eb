ghost use Rattle.std.specs.Prelude.{None, ◌≡◌, ◌≤◌, ◌<◌, length, IfOk};

use ibx_base::{Failed, Sink, write_all};
use std::cell::RefCell;
use std::io::Write;

// How many bytes are gathered before they are written.
const CAPACITY: usize = 16_384;

/// An output stream, which tells nothing of what it took.
#[derive(Drop)]
pub struct Stream<W: Write + Drop> {
    writer: W,
    faults: u64,
}

impl<W: Write + Drop> Stream<W> {
    /// The stream that writes to this writer, of which no fault was met.
    pub fn new(writer: W) -> Stream<W>
        ensures { result.faults ≡ 0 }
    {
        Stream { writer, faults: 0 }
    }
}

impl<W: Write + Drop> Sink for Stream<W> {
    ghost taken = { λ _. None };

    ghost faults = { λ s. s.faults };

    fn write(&mut self, piece: &[u8]) -> Result<usize, Failed> {
        match self.writer.write(piece) {
            // A write of nothing would go on for ever.
            Ok(count) if count > 0 || piece.is_empty() => Ok(count),
            _ => {
                self.faults = self.faults.saturating_add(1);
                Err(Failed)
            }
        }
    }
}

/// What is on its way to a stream: bytes are gathered, and written where the buffer is full.
#[derive(Drop)]
pub struct Gathered<W: Write + Drop> {
    stream: Stream<W>,
    buffer: [u8; CAPACITY],
    used: usize,
    // A write failed: what was gathered then is lost, and nothing is taken from then on.
    failed: bool,
}

impl<W: Write + Drop> Gathered<W> {
    /// Nothing is gathered for this writer so far.
    pub fn new(writer: W) -> Gathered<W> {
        Gathered {
            stream: Stream::new(writer),
            buffer: [0; CAPACITY],
            used: 0,
            failed: false,
        }
    }

    /// Writes all that is gathered. `Failed` comes where this write or one before it failed.
    pub fn flush(&mut self) -> Result<(), Failed> {
        if self.failed {
            return Err(Failed);
        }
        let used = self.used.min(CAPACITY);
        self.used = 0;
        let written = write_all(&mut self.stream, &self.buffer[..used]);
        self.failed = written.is_err();
        written
    }

    // Takes as many of the first bytes as there is room for, at least one of a piece that isn't empty.
    fn take(&mut self, piece: &[u8]) -> Result<usize, Failed>
        ensures within { IfOk result (λ count. count ≤ length piece.now) }
        ensures progress { IfOk result (λ count. 0 < length piece.now → 0 < count) }
    {
        if self.failed {
            return Err(Failed);
        }
        if self.used >= CAPACITY {
            self.flush()?;
        }
        let used = if self.used < CAPACITY { self.used } else { 0 };
        let count = piece.len().min(CAPACITY - used);
        self.buffer[used..used + count].copy_from_slice(&piece[..count]);
        self.used = used + count;
        Ok(count)
    }
}

/// Standard output as a sink, which gathers what it takes.
#[derive(Drop)]
pub struct Printed<'g, W: Write + Drop> {
    gathered: &'g RefCell<Gathered<W>>,
    faults: u64,
}

impl<'g, W: Write + Drop> Printed<'g, W> {
    /// The sink whose bytes are gathered here, of which no fault was met.
    pub fn new(gathered: &'g RefCell<Gathered<W>>) -> Printed<'g, W>
        ensures { result.faults ≡ 0 }
    {
        Printed {
            gathered,
            faults: 0,
        }
    }
}

impl<W: Write + Drop> Sink for Printed<'_, W> {
    ghost taken = { λ _. None };

    ghost faults = { λ s. s.faults };

    fn write(&mut self, piece: &[u8]) -> Result<usize, Failed> {
        if let Ok(mut gathered) = self.gathered.try_borrow_mut() {
            if let Ok(count) = gathered.take(piece) {
                return Ok(count);
            }
        }
        self.faults = self.faults.saturating_add(1);
        Err(Failed)
    }
}

/// Standard error as a sink: what is gathered for standard output is written before each line.
#[derive(Drop)]
pub struct Reported<'g, W: Write + Drop, E: Write + Drop> {
    gathered: &'g RefCell<Gathered<W>>,
    stream: Stream<E>,
}

impl<'g, W: Write + Drop, E: Write + Drop> Reported<'g, W, E> {
    /// The sink that writes to this writer after what is gathered here, of which no fault was met.
    pub fn new(gathered: &'g RefCell<Gathered<W>>, writer: E) -> Reported<'g, W, E>
        ensures { result.stream.faults ≡ 0 }
    {
        Reported {
            gathered,
            stream: Stream::new(writer),
        }
    }
}

impl<W: Write + Drop, E: Write + Drop> Sink for Reported<'_, W, E> {
    ghost taken = { λ _. None };

    ghost faults = { λ s. s.stream.faults };

    // Where standard output fails the line is written all the same; `main` finds the failure once more.
    fn write(&mut self, piece: &[u8]) -> Result<usize, Failed> {
        if let Ok(mut gathered) = self.gathered.try_borrow_mut() {
            let _ = gathered.flush();
        }
        self.stream.write(piece)
    }
}
