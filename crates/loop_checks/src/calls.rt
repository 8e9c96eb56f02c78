//! Parts of mutations.

use pc_terms::{NoMemory, Row, Text};
use std::alloc::Global;

pub fn one_pair(alloc: Global, name: &str, text: &str) -> Result<Row<(Text, Text)>, NoMemory> {
    let mut pairs = Row::new(alloc);
    pairs.push((Text::new(alloc, name)?, Text::new(alloc, text)?))?;
    Ok(pairs)
}

pub fn one_name(alloc: Global, name: &str) -> Result<Row<Text>, NoMemory> {
    let mut names = Row::new(alloc);
    names.push(Text::new(alloc, name)?)?;
    Ok(names)
}
