//! What files have in them, beside the texts.

use pc_outside::MemoryFiles;
use pc_terms::NoMemory;
use std::alloc::Global;

#[derive(Clone, Copy)]
pub enum Content {
    Text(&'static str),
    Bytes(&'static [u8]),
    /// So many asks of a file that is not loaded.
    Asks(usize),
    /// So many spaces.
    Spaces(usize),
}

fn push_content(bytes: &mut Vec<u8>, content: Content) -> Result<(), NoMemory> {
    match content {
        Content::Text(text) => bytes.extend_from_slice(text.as_bytes())?,
        Content::Bytes(more) => bytes.extend_from_slice(more)?,
        Content::Spaces(count) => bytes.resize(count, b' ')?,
        Content::Asks(count) => {
            for _ in 0..count {
                bytes.extend_from_slice(b"typed D.scala\n")?;
            }
        }
    }
    Ok(())
}

/// Adds files with these contents.
pub fn add(
    alloc: Global,
    files: &mut MemoryFiles,
    contents: &[(&str, Content)],
) -> Result<(), NoMemory> {
    for (name, content) in contents {
        let mut bytes = Vec::new(alloc);
        push_content(&mut bytes, *content)?;
        files.insert(name, bytes)?;
    }
    Ok(())
}
