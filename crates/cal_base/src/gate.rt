//! What a thread passes before each of its lines.

/// What is called before each line of a thread, so that a test can hold the thread there.
pub trait Gate {
    /// Lets a thread go on to its line, both by number, the lines of a thread from 1. It returns.
    fn pass(&self, thread: u32, line: u32);
}

/// A gate that holds nobody.
#[derive(Clone, Copy, Debug)]
pub struct OpenGate;

impl Gate for OpenGate {
    fn pass(&self, _thread: u32, _line: u32) {}
}
