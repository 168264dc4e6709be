//! Laws of the definitions, each the contract of a function with an empty body: what a reader would
//! expect of them, proved for all values.

pub mod attributes;
pub mod images;
pub mod page_maps;
pub mod pages;
pub mod pairs;
pub mod paths;
pub mod placement;
pub mod scripts;
pub mod trees;
