use std::io;
use thiserror::Error;

/// Why a file, or all of them, are not shown.
#[derive(Debug, Drop, Error)]
pub enum Refused {
    #[error("the words are LAYER FILE.., where the layer is `tokens` or `tree`")]
    Usage,
    #[error("the file cannot be read: {0}")]
    Unreadable(io::Error),
    #[error("the file is longer than 262144 bytes")]
    TooLong,
    #[error("no memory")]
    NoMemory,
    #[error("the arguments or the output failed: {0}")]
    Outside(io::Error),
}
