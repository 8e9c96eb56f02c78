//! Values that are made from the rows of a table.

use pc_terms::{NoMemory, Row};
use std::alloc::Global;

/// A row of a table, and what is made from it.
pub trait Make {
    type Made: Drop;

    fn make(&self, alloc: Global) -> Result<Self::Made, NoMemory>;
}

pub fn made<M: Make>(alloc: Global, rows: &[M]) -> Result<Row<M::Made>, NoMemory> {
    let mut made = Row::new(alloc);
    for row in rows {
        made.push(row.make(alloc)?)?;
    }
    Ok(made)
}

pub fn made_each<M: Make>(alloc: Global, tables: &[&[M]]) -> Result<Row<Row<M::Made>>, NoMemory> {
    let mut all = Row::new(alloc);
    for rows in tables {
        all.push(made(alloc, rows)?)?;
    }
    Ok(all)
}
