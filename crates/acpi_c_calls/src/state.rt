//! The state of a writer.

/// How many objects may be open at a time.
pub const DEPTH: usize = 32;

/// What a writer keeps, besides the caller's buffer. Any values are allowed: calls check what they rely on.
#[repr(C)]
#[derive(Clone, Copy, Debug, PartialEq, Drop)]
pub struct State {
    /// How many bytes are written.
    pub size: usize,
    /// How many objects are open.
    pub depth: usize,
    /// Where the PkgLength of each open object goes: an offset in the buffer.
    pub marks: [usize; 32],
    /// What closing each open object adds: 0 is nothing, 1 is the size of a buffer, and any other number the size and the end tag
    /// of resource descriptors.
    pub kinds: [u32; 32],
    /// The number of the first fault, or 0.
    pub fault: u32,
}
