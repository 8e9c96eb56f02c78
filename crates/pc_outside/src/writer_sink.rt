ghost use Rattle.std.specs.Prelude.{◌≡◌, true, IsErrOf};
ghost use Rattle.pc_outside.specs.WriterSink.{TakesBytes};

use crate::{PutRefused, Sink};
use std::io;
use std::io::Write;

/// A sink over a writer, as standard output and standard error. What reached it is not told. Each error of the
/// writer, also an interrupted call, and each call that takes none of the bytes left makes the put `Failed`.
#[derive(Drop)]
pub struct WriterSink<W> {
    writer: W,
    faults: u64,
    whole: bool,
}

impl<W: Write> WriterSink<W> {
    ghost use Rattle.pc_outside.specs.WriterSink.{writer_of, faults_of, whole_of};

    pub fn new(writer: W) -> WriterSink<W>
        ensures writer { writer_of result ≡ writer }
        ensures faults { faults_of result ≡ 0 }
        ensures whole { whole_of result ≡ true }
    {
        WriterSink {
            writer,
            faults: 0,
            whole: true,
        }
    }

    /// How many calls of `put` failed.
    pub fn faults(&self) -> u64
        ensures { result ≡ faults_of self.now }
    {
        self.faults
    }

    /// Whether each call of `put` so far answered `Ok`.
    pub fn is_whole(&self) -> bool
        ensures { result ≡ whole_of self.now }
    {
        self.whole
    }
}

// The flush is for writers that keep bytes back; standard output and standard error keep none.
fn write_whole<W: Write>(writer: &mut W, bytes: &[u8]) -> io::Result<()>
    ensures { TakesBytes result bytes.now (W.contents writer.old) (W.contents writer.new) }
{
    let mut done = 0;
    while done < bytes.len() {
        let count = writer.write(&bytes[done..])?;
        if count == 0 {
            return Err(io::Error::from(io::ErrorKind::WriteZero));
        }
        done += count;
    }
    writer.flush()
}

impl<W: Write> Sink for WriterSink<W> {
    ghost use Rattle.std.specs.Prelude.{None};
    ghost use Rattle.pc_outside.specs.declared.sink.PutRefused.TheVariants.{NoMemory};
    ghost use Rattle.pc_outside.specs.Outside.{Writes, PutCounts};
    ghost use Rattle.pc_outside.specs.Counting.{faults_after_put, whole_after_put};
    ghost use Rattle.pc_outside.specs.WriterSink.{writer_of, faults_of, whole_of, TakesBytes};

    ghost faults = { faults_of };

    ghost written = { λ sink. None };

    ghost whole = { whole_of };

    fn put(&mut self, bytes: &[u8]) -> Result<(), PutRefused>
        ensures writes { Writes result bytes.now None None }
        ensures counts { PutCounts result (faults_of self.old) (faults_of self.new) (whole_of self.old) (whole_of self.new) }

        ensures bytes { TakesBytes result bytes.now (W.contents (writer_of self.old)) (W.contents (writer_of self.new)) }
        ensures faults { faults_of self.new ≡ faults_after_put result (faults_of self.old) }
        ensures whole { whole_of self.new ≡ whole_after_put result (whole_of self.old) }
        ensures no_memory { IsErrOf result NoMemory → ⊥ }
    {
        if write_whole(&mut self.writer, bytes).is_err() {
            self.faults = self.faults.saturating_add(1);
            self.whole = false;
            return Err(PutRefused::Failed);
        }
        Ok(())
    }
}
