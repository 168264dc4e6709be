//! The tests, a module for each kind of what is tested.

mod change_words;
mod differences;
mod listed_lines;
mod listing_streams;
mod pictures;
mod tree_steps;
mod views;
mod words;
