// Where the boxes of a picture stand: where their outlines want them, but never over one another.
ghost use Rattle.std.specs.Prelude.{◌≡◌, ◌≤◌, ◌<◌, ◌+◌, ◌*◌, ◌/◌, ◌^◌, max, min, IfOk, All, length, map, string_bytes};
ghost use Rattle.std.specs.Str.{chars};
ghost use Rattle.tree_pictures.specs.Places as places;
ghost use Rattle.tree_pictures.specs.Places.{width_for, right, ArePlaced};

use crate::boxes::Boxes;
use crate::outlines::lefts_of;
use std::alloc::{AllocError, Global};

// Sizes in pixels: of a character, around a text, and between two boxes and at the picture's edge.
const CHARACTER: usize = 9;

const PADDING: usize = 14;

const MARGIN: u128 = 10;

/// Where a box stands.
#[derive(Clone, Copy)]
pub(crate) struct Tile {
    pub(crate) width: usize,
    /// How many boxes are above it.
    pub(crate) row: usize,
    /// Where it begins, and where its middle is.
    pub(crate) left: u128,
    pub(crate) middle: u128,
}

fn count_of(label: &str) -> usize
    ensures { result ≡ length (chars label.now) }
{
    label.chars().count()
}

/// How wide a box of this text is.
fn width_of(label: &str) -> usize
    ensures { result ≡ width_for label.now }
{
    count_of(label)
        .saturating_mul(CHARACTER)
        .saturating_add(PADDING)
}

/// How wide the box of each text is.
fn widths_of(alloc: Global, labels: &[String]) -> Result<Vec<usize>, AllocError>
    ensures { IfOk result (λ widths. widths.items ≡ map width_for (map string_bytes labels.now)) }
{
    let mut widths = Vec::new(alloc);
    for label in labels {
        widths.push(width_of(label.as_str()))?;
    }
    Ok(widths)
}

/// The row under that of a box, if it is one of these.
fn row_under(above: Option<usize>, tiles: &[Tile]) -> usize
    requires { All (λ tile. tile.row < length tiles.now) tiles.now }
    ensures is { result ≡ places.row_under tiles.now above }
    ensures low { result ≤ length tiles.now }
{
    match above {
        Some(above) => match tiles.get(above) {
            Some(tile) => tile.row + 1,
            None => 0,
        },
        None => 0,
    }
}

/// A box in a row, at the place where it is wanted, or further right where the last box of the row ends after that.
fn tile_in(row: usize, width: usize, wanted: u64, end: u128) -> Tile
    requires { end + 2 ^ 65 < 2 ^ 128 }
    ensures row { result.row ≡ row }
    ensures width { result.width ≡ width }
    ensures left { result.left ≡ max wanted (end + 10) }
    ensures middle { result.middle ≡ result.left + result.width / 2 }
{
    let left = u128::from(wanted).max(end + MARGIN);
    Tile {
        width,
        row,
        left,
        middle: left + width as u128 / 2,
    }
}

fn wanted_at(lefts: &[u64], i: usize) -> u64 {
    lefts.get(i).copied().unwrap_or(0)
}

/// The place of each of these boxes, which are to begin there.
fn placed_at(
    alloc: Global,
    widths: &[usize],
    aboves: &[Option<usize>],
    lefts: &[u64],
) -> Result<Vec<Tile>, AllocError>
    requires each { length aboves.now ≡ length widths.now }
    requires few { length widths.now < 2 ^ 63 }
    ensures each { IfOk result (λ tiles. length tiles.items ≡ length widths.now) }
    ensures placed { IfOk result (λ tiles. ArePlaced tiles.items widths.now aboves.now) }
    ensures near { IfOk result (λ tiles. All (λ tile. right tile + 10 < 2 ^ 128) tiles.items) }
{
    let mut tiles = Vec::new(alloc);
    let mut ends = vec![in alloc; 0u128; widths.len()]?;
    for (i, width) in widths.iter().enumerate() {
        let row = row_under(aboves[i], &tiles);
        let tile = tile_in(row, *width, wanted_at(lefts, i), ends[row]);
        ends[row] = tile.left + tile.width as u128;
        tiles.push(tile)?;
    }
    Ok(tiles)
}

/// The place of each box.
pub(crate) fn placed(alloc: Global, boxes: &Boxes) -> Result<Vec<Tile>, AllocError>
    requires { length boxes.now.labels.items ≡ length boxes.now.aboves.items }
    ensures each { IfOk result (λ tiles. length tiles.items ≡ length boxes.now.aboves.items) }
    ensures placed { IfOk result (λ tiles. ArePlaced tiles.items
        (map width_for (map string_bytes boxes.now.labels.items)) boxes.now.aboves.items) }
    ensures near { IfOk result (λ tiles. All (λ tile. right tile + 10 < 2 ^ 128) tiles.items) }
{
    let widths = widths_of(alloc, &boxes.labels)?;
    let lefts = lefts_of(alloc, &widths, &boxes.aboves)?;
    placed_at(alloc, &widths, &boxes.aboves, &lefts)
}
