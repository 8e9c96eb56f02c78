ghost use Rattle.std.specs.Prelude.{◌≡◌, ◌+◌, ◌<◌, ◌^◌};

/// What the reloads of a session take up.
#[derive(Clone, Copy, Debug, PartialEq, Eq)]
pub struct Usage {
    /// The bytes of all texts.
    pub text: u64,
    /// The names, each once.
    pub names: u64,
    /// The bytes of the longest text of each name.
    pub map: u64,
}

impl Usage {
    ghost use Rattle.work_queue.specs.Reloads.{with_text};

    /// With one text more, of this length, where the longest text of its name is `most` bytes long so far.
    pub fn with_text(self, most: Option<u64>, len: u64) -> Usage
        requires text { self.text + len < 2 ^ 64 }
        requires names { self.names + 1 < 2 ^ 64 }
        requires map { self.map + len < 2 ^ 64 }
        ensures { result ≡ with_text self most len }
    {
        Usage {
            text: self.text + len,
            names: self.names + if most.is_some() { 0 } else { 1 },
            map: self.map + len.saturating_sub(most.unwrap_or(0)),
        }
    }
}
