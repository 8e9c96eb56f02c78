use std::io;
use thiserror::Error;

/// Why nothing was measured.
#[derive(Debug, Drop, Error)]
pub enum Refused {
    #[error("the words are LAYER NAME TIMES, as `types FILE 5`")]
    Usage,
    #[error("the layer is `scan`, `types`, `patterns`, `exprs`, `units` or `locate`")]
    UnknownLayer,
    #[error("TIMES is a number from 1 to 4294967295")]
    BadTimes,
    #[error("the file cannot be read: {0}")]
    Unreadable(io::Error),
    #[error("the file is longer than 262144 bytes")]
    TooLong,
    #[error("the file is no type")]
    NoType,
    #[error("no memory")]
    NoMemory,
    #[error("the arguments or the output failed: {0}")]
    Outside(io::Error),
}
