//! What the reader of units gives of texts. The tests stand in a crate of their own, since a crate with tests is
//! proved twice.
#![tactic(auto)]

#[cfg(test)]
mod cutting;
#[cfg(test)]
mod hostile;
#[cfg(test)]
mod lists;
#[cfg(test)]
mod notation;
#[cfg(test)]
mod productions;
#[cfg(test)]
mod templates;
#[cfg(test)]
mod units;
