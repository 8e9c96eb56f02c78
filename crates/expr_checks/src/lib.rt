//! What the reader of expressions gives of texts. The tests stand in a crate of their own, since a crate with tests is
//! proved twice.
#![tactic(auto)]

#[cfg(test)]
mod hostile;
#[cfg(test)]
mod notation;
#[cfg(test)]
mod tests;
