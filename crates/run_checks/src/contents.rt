//! What files have in them.

use pc_terms::NoMemory;
use std::alloc::Global;

#[derive(Clone, Copy)]
pub enum Content {
    Text(&'static str),
    Bytes(&'static [u8]),
    /// So many spaces.
    Spaces(usize),
    /// A comment of so many bytes.
    Comment(usize),
    /// `reload` with so many names, from N0 on, each with the text at `a.txt`, and then one line more.
    Names(u32, &'static str),
    /// So many asks of a file that is not loaded, and then a `reload` of so many names.
    AsksAndNames(usize, u32),
}

fn push_names(alloc: Global, text: &mut Vec<u8>, count: u32) -> Result<(), NoMemory> {
    text.extend_from_slice(b"reload")?;
    for name in 0..count {
        let pair = format!(in alloc; " N{name} a.txt")?;
        text.extend_from_slice(pair.as_str().as_bytes())?;
    }
    text.push(b'\n')?;
    Ok(())
}

fn push_asks(text: &mut Vec<u8>, count: usize) -> Result<(), NoMemory> {
    for _ in 0..count {
        text.extend_from_slice(b"typed A\n")?;
    }
    Ok(())
}

fn push_content(alloc: Global, text: &mut Vec<u8>, content: Content) -> Result<(), NoMemory> {
    match content {
        Content::Text(characters) => text.extend_from_slice(characters.as_bytes())?,
        Content::Bytes(bytes) => text.extend_from_slice(bytes)?,
        Content::Spaces(bytes) => text.resize(bytes, b' ')?,
        Content::Comment(bytes) => text.resize(bytes, b'#')?,
        Content::Names(count, more) => {
            push_names(alloc, text, count)?;
            text.extend_from_slice(more.as_bytes())?;
        }
        Content::AsksAndNames(count, names) => {
            push_asks(text, count)?;
            push_names(alloc, text, names)?;
        }
    }
    Ok(())
}

pub fn content_of(alloc: Global, content: Content) -> Result<Vec<u8>, NoMemory> {
    let mut text = Vec::new(alloc);
    push_content(alloc, &mut text, content)?;
    Ok(text)
}
