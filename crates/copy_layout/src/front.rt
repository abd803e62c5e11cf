//! The bytes that a sequence at an address is made of.

/// The bytes of a code from an address on, as far as they are there, 8 at most.
#[derive(Clone, Copy)]
pub struct Front {
    /// The bytes, and zeros after them.
    pub bytes: [u8; 8],
    /// How many they are.
    pub len: usize,
}
