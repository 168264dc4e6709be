//! What each subcommand is given, and what it hands back.

use box_words::{Spelling, Status};
use std::alloc::Global;

/// What a call is about, as messages name it, and how it speaks.
#[derive(Clone, Copy)]
pub struct Place<'a> {
    /// Where memory comes from.
    pub alloc: Global,
    /// The name of the image, as it was given; of a listing, where it comes from.
    pub image: &'a str,
    /// The name of a file or a folder of the host that the call makes, reads or compares with; the empty text for none.
    pub file: &'a str,
    /// How paths are shown.
    pub spelling: Spelling,
    /// Whether a line says what was made.
    pub sums_up: bool,
}

/// What a call hands back, and how it ended.
#[derive(Drop)]
pub struct Ended<D, W, E> {
    /// How it ended.
    pub status: Status,
    /// The disk of the image, which was only read.
    pub disk: D,
    /// The sink of the data.
    pub out: W,
    /// The sink of what is said.
    pub say: E,
}

/// What a call hands back that makes a folder of the host, and how it ended.
#[derive(Drop)]
pub struct Made<F, B, E> {
    /// How it ended.
    pub status: Status,
    /// The disk of the image, which was only read, or the listing.
    pub from: F,
    /// The builder of the folder.
    pub builder: B,
    /// The sink of what is said.
    pub say: E,
}

/// What a call hands back that makes an image, and how it ended.
#[derive(Drop)]
pub struct Stored<D, F, E> {
    /// How it ended.
    pub status: Status,
    /// The disk of the image.
    pub disk: D,
    /// The folder; nothing for the image of an empty tree.
    pub folder: F,
    /// The sink of what is said.
    pub say: E,
}

/// What a call hands back that only prints, and how it ended.
#[derive(Drop)]
pub struct Printed<W, E> {
    /// How it ended.
    pub status: Status,
    /// The sink of the data.
    pub out: W,
    /// The sink of what is said.
    pub say: E,
}

/// What a call hands back that prints the listing of a folder, and how it ended.
#[derive(Drop)]
pub struct Listed<S, W, E> {
    /// How it ended.
    pub status: Status,
    /// The stream of the folder, which tells where it ended.
    pub stream: S,
    /// The sink of the listing.
    pub out: W,
    /// The sink of what is said.
    pub say: E,
}

/// What a comparison hands back, and how it ended.
#[derive(Drop)]
pub struct Compared<D, F, W, E> {
    /// How it ended.
    pub status: Status,
    /// The disk of the image, which was only read.
    pub first: D,
    /// The disk of the other image, which was only read, or the folder.
    pub second: F,
    /// The sink of the lines.
    pub out: W,
    /// The sink of what is said.
    pub say: E,
}
