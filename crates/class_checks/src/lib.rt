//! The tests of `class_parents`, `base_classes` and `type_members`. They stand in a crate of their own, since a crate with tests is proved twice.
#![tactic(auto)]

#[cfg(test)]
mod bases;
#[cfg(test)]
mod cases;
#[cfg(test)]
mod definitions;
#[cfg(test)]
mod known;
#[cfg(test)]
mod linearisations;
#[cfg(test)]
mod members;
#[cfg(test)]
mod words;
