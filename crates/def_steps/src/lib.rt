//! Reads definitions, item by item, up to and with their right sides.
#![tactic(auto)]

pub mod declarations;
pub mod definitions;
mod methods;
pub mod modifiers;
pub mod params;
pub mod states;
mod type_params;
mod values;
