//! Files in memory that write down which of them are read.

use pc_outside::{Files, MemoryFiles, ReadRefused};
use pc_terms::{NoMemory, Row, Text};
use std::alloc::Global;

/// Files in memory, with the names of the reads so far, in order.
#[derive(Drop)]
pub struct CountingFiles {
    files: MemoryFiles,
    reads: Row<Text>,
}

impl CountingFiles {
    /// No files. The reads of these numbers fail.
    pub fn new(alloc: Global, failing: Vec<u64>) -> CountingFiles {
        CountingFiles {
            files: MemoryFiles::new(alloc, failing),
            reads: Row::new(alloc),
        }
    }

    /// Adds a file, or replaces its content.
    pub fn insert(&mut self, name: &str, content: Vec<u8>) -> Result<(), NoMemory> {
        self.files.insert(name, content)
    }

    /// The names of the reads, in order.
    pub fn into_reads(self) -> Row<Text> {
        let CountingFiles { files: _, reads } = self;
        reads
    }

    /// Whether a name was read again.
    pub fn were_read_again(&self) -> bool {
        let reads = self.reads.as_slice();
        for (position, name) in reads.iter().enumerate() {
            if reads[..position].contains(name) {
                return true;
            }
        }
        false
    }
}

impl Files for CountingFiles {
    ghost use Rattle.pc_outside.specs.MemoryFiles.{content_of, faults_of, last_failed_of};

    ghost faults = { λ it. faults_of it.files };

    ghost content = { λ it. content_of it.files };

    ghost last_failed = { λ it. last_failed_of it.files };

    fn read(&mut self, alloc: Global, name: &str, most: usize) -> Result<Vec<u8>, ReadRefused> {
        let Ok(kept) = Text::new(alloc, name) else {
            return Err(ReadRefused::NoMemory);
        };
        if self.reads.push(kept).is_err() {
            return Err(ReadRefused::NoMemory);
        }
        self.files.read(alloc, name, most)
    }
}
