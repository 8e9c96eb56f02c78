use script_text::ScriptRefused;
use std::io;
use thiserror::Error;

/// Why nothing was measured.
#[derive(Debug, Drop, Error)]
pub enum Refused {
    #[error("the words are KIND NAME, as `schedule FILE` or `client FILE`")]
    Usage,
    #[error("the file cannot be read: {0}")]
    Unreadable(io::Error),
    #[error("the script is refused: {0}")]
    Script(ScriptRefused),
    #[error("no memory")]
    NoMemory,
    #[error("the arguments or the output failed: {0}")]
    Outside(io::Error),
}
