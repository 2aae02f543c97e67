//! Names, subclasses and icons by the parts of a cache that were read back once.

pub mod icons;
pub mod name_types;
pub mod names;
pub mod pairs;
pub mod rules;
pub mod spelled_once;
pub mod steps;
pub mod targets;
