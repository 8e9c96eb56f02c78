//! Files in memory, and those of the system.

use pc_outside::{Files, MemoryFiles, ReadRefused, StdFiles};
use pc_terms::NoMemory;
use std::alloc::Global;
use std::process::Abort;
use std::test::Fail;
use std::{env, fs, process};

/// A read of the first bytes of a file.
struct Read {
    name: &'static str,
    most: usize,
    given: Result<&'static str, ReadRefused>,
    /// How many reads have failed then, and which name last, `-` where none has.
    faults: u64,
    last_failed: &'static str,
}

static READS: [Read; 2] = [
    Read {
        name: "A.scala",
        most: 3,
        given: Ok("obj"),
        faults: 0,
        last_failed: "-",
    },
    Read {
        name: "B.scala",
        most: 100,
        given: Ok("class B"),
        faults: 0,
        last_failed: "-",
    },
];

static FAILING_READS: [Read; 4] = [
    Read {
        name: "A.scala",
        most: 100,
        given: Ok("object A"),
        faults: 0,
        last_failed: "-",
    },
    Read {
        name: "A.scala",
        most: 100,
        given: Err(ReadRefused::Failed),
        faults: 1,
        last_failed: "A.scala",
    },
    Read {
        name: "A.scala",
        most: 100,
        given: Ok("object A"),
        faults: 1,
        last_failed: "A.scala",
    },
    Read {
        name: "C.scala",
        most: 100,
        given: Err(ReadRefused::Failed),
        faults: 2,
        last_failed: "C.scala",
    },
];

// Files of which the reads of these numbers fail.
fn files_of(
    alloc: Global,
    failing: &[u64],
    entries: &[(&str, &str)],
) -> Result<MemoryFiles, NoMemory> {
    let mut files = MemoryFiles::new(alloc, failing.to_vec(alloc)?);
    for (name, text) in entries {
        files.insert(name, text.as_bytes().to_vec(alloc)?)?;
    }
    Ok(files)
}

fn agree<F: Files>(
    rt: &(impl Abort + AllocGlobal),
    files: &mut F,
    read: &Read,
) -> Result<(), Fail> {
    let given = files.read(rt.alloc(), read.name, read.most);
    match read.given {
        Ok(text) => assert_eq!(rt; given?.as_slice(), text.as_bytes()),
        Err(why) => assert_eq!(rt; given.err(), Some(why)),
    }
    Ok(())
}

fn agree_all(
    rt: &(impl Abort + AllocGlobal),
    files: &mut MemoryFiles,
    reads: &[Read],
) -> Result<(), Fail> {
    for read in reads {
        agree(rt, files, read)?;
        assert_eq!(rt; files.faults(), read.faults);
        assert_eq!(rt; files.last_failed().unwrap_or("-"), read.last_failed);
    }
    Ok(())
}

#[test]
fn a_read_gives_the_beginning_of_a_file(rt: HostRuntime) -> Result<(), Fail> {
    let entries = [
        ("A.scala", "object A"),
        ("B.scala", "object B"),
        ("B.scala", "class B"),
    ];
    let mut files = files_of(rt.alloc(), &[], &entries)?;
    agree_all(&rt, &mut files, &READS)
}

#[test]
fn planned_calls_and_unknown_names_fail(rt: HostRuntime) -> Result<(), Fail> {
    let mut files = files_of(rt.alloc(), &[2], &[("A.scala", "object A")])?;
    agree_all(&rt, &mut files, &FAILING_READS)
}

// The files of the system are read in pieces of this many bytes.
const PIECE: usize = 16_384;

#[test]
fn a_file_of_the_system_is_read(rt: HostRuntime) -> Result<(), Fail> {
    let alloc = rt.alloc();
    let folder = env::temp_dir(&rt)?;
    let name = format!(in alloc; "pc_outside-{}", process::id(rt.process()))?;
    let path = folder.as_path().join(alloc, name.as_str())?;
    let path = path.as_str();
    let content = vec![in alloc; b'x'; 2 * PIECE]?;
    fs::write(&rt, path, content.as_slice())?;
    let mut files = StdFiles::new(&rt);
    let beginning = files.read(alloc, path, PIECE + 1);
    let whole = files.read(alloc, path, 3 * PIECE);
    fs::remove_file(&rt, path)?;
    let gone = files.read(alloc, path, 1);
    assert_eq!(rt; beginning?.as_slice(), &content[..PIECE + 1]);
    assert_eq!(rt; whole?.as_slice(), content.as_slice());
    assert_eq!(rt; gone.err(), Some(ReadRefused::Failed));
    assert_eq!(rt; files.faults(), 1);
    Ok(())
}
