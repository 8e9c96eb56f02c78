/// The most bytes that one source file may have.
pub const MAX_SOURCE_BYTES: usize = 262144;
