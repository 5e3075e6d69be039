//! The rules of sound images on images that are made by hand, each at its borders, and which of two broken ones is told.

mod layers;
mod lists;
mod nodes;
mod trees;

use image_layer_rules::first_broken_of_all;
use image_rules::{Broken, first_broken};
use pm_words::{Image, Layout};
use std::alloc::Global;

/// The words of the one-byte names `a`, `b` and `c`. The fingerprint of each is its byte.
const A: u64 = 0x61 << 56;

const B: u64 = 0x62 << 56;

const C: u64 = 0x63 << 56;

/// Eight bytes `a`.
const AS: u64 = 0x6161_6161_6161_6161;

/// What a generation adds to a version word.
const RUN: u64 = 1 << 40;

/// A fresh image of one caller with so many nodes and slots, in which words have other values, each behind its word;
/// and whether all rules are asked for, or the nine on the header, the list and the log.
#[derive(Clone, Copy)]
struct Base {
    nodes: u64,
    slots: u64,
    words: &'static [u64],
    all: bool,
}

/// That image with further changes, other than of words that tell the layout: two zeros stand for no change.
fn image_with(alloc: Global, base: &Base, changes: &[u64]) -> Option<Image> {
    let mut bytes = fresh_bytes(alloc, base.nodes, base.slots)?;
    change_words(bytes.as_mut_slice(), base.words);
    change_words(bytes.as_mut_slice(), changes);
    Image::read(alloc, bytes.as_slice()).ok()
}

fn fresh_bytes(alloc: Global, nodes: u64, slots: u64) -> Option<Vec<u8>> {
    let layout = Layout::new(nodes, slots, 1).ok()?;
    let image = Image::fresh(alloc, layout).ok()?;
    image.write(alloc).ok()
}

fn change_words(bytes: &mut [u8], changes: &[u64]) {
    let (words, _) = bytes.as_chunks_mut::<8>();
    let (pairs, _) = changes.as_chunks::<2>();
    for &[word, value] in pairs {
        if word >= 5 && word < words.len() as u64 {
            words[word as usize] = value.to_le_bytes();
        }
    }
}

/// The rule and the word that are named in an image; zeros where it is sound.
fn named(image: &Image, all: bool) -> [u64; 2] {
    let broken = if all {
        first_broken_of_all(image)
    } else {
        first_broken(image)
    };
    match broken {
        Some(Broken { rule, word }) => [rule, word],
        None => [0, 0],
    }
}

/// Whether the rule and the word are named with which the row begins, where the words that follow have the values
/// behind them.
fn is_named(alloc: Global, base: &Base, row: &[u64]) -> bool {
    if row.len() < 2 {
        return false;
    }
    match image_with(alloc, base, &row[2..]) {
        Some(image) => named(&image, base.all) == [row[0], row[1]],
        None => false,
    }
}

/// The number of the first row of which something else is named.
fn first_other<const N: usize>(alloc: Global, base: &Base, rows: &[[u64; N]]) -> Option<usize> {
    for (number, row) in rows.iter().enumerate() {
        if !is_named(alloc, base, row) {
            return Some(number);
        }
    }
    None
}
