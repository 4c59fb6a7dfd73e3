// A tree as a picture.
ghost use Rattle.std.specs.Prelude.{◌≡◌, ◌+◌, ◌++◌, ◌≤◌, ◌<◌, ◌^◌, max, All, IfOk, OnOk, string_bytes, option_map, slice_get, length, map, decimal};
ghost use Rattle.tree_pictures.specs.Pictures as pictures;
ghost use Rattle.tree_pictures.specs.Pictures.{escaped, escaped_text, line_begin, line_end, frame_begin, frame_end, text_begin, text_line, picture_head, bottom, IsLeast, IsPicture};
ghost use Rattle.tree_pictures.specs.Places.{right};
ghost use Rattle.tree_pictures.specs.Boxes.{IsDrawing, AddsDrawing};

use crate::boxes::boxes_of;
use crate::places::{Tile, placed};
use crate::puts::{put, put_char, put_long};
use std::alloc::{AllocError, Global};
use tree_text::Node;

// Sizes in pixels: at the picture's edge, of a box and of a row.
const MARGIN: u128 = 10;

const BOX: u128 = 26;

const ROW: u128 = 52;

fn row_top(tile: &Tile) -> u128
    ensures { result ≡ pictures.row_top tile.now }
{
    tile.row as u128 * ROW + MARGIN
}

fn put_top(tile: &Tile, out: &mut String) -> Result<(), AllocError>
    ensures { OnOk result (string_bytes out.new ≡ string_bytes out.old ++ decimal (pictures.row_top
        tile.now)) }
{
    put_long(row_top(tile), out)
}

fn put_middle(tile: &Tile, out: &mut String) -> Result<(), AllocError>
    ensures { OnOk result (string_bytes out.new ≡ string_bytes out.old ++ decimal
        tile.now.middle) }
{
    put_long(tile.middle, out)
}

/// Appends a character of a text.
fn push_character(c: char, out: &mut String) -> Result<(), AllocError>
    ensures { OnOk result (string_bytes out.new ≡ string_bytes out.old ++ escaped c) }
{
    match c {
        '&' => put("&amp;", out),
        '<' => put("&lt;", out),
        '>' => put("&gt;", out),
        _ => put_char(c, out),
    }
}

fn push_escaped(text: &str, out: &mut String) -> Result<(), AllocError>
    ensures { OnOk result (string_bytes out.new ≡ string_bytes out.old ++ escaped_text text.now) }
{
    for c in text.chars() {
        push_character(c, out)?;
    }
    Ok(())
}

fn push_line_begin(tile: &Tile, out: &mut String) -> Result<(), AllocError>
    ensures { OnOk result (string_bytes out.new ≡ string_bytes out.old ++ line_begin tile.now) }
{
    put("<line x1=\"", out)?;
    put_middle(tile, out)?;
    put("\" y1=\"", out)?;
    put_long(row_top(tile) + BOX, out)
}

fn push_line_end(tile: &Tile, out: &mut String) -> Result<(), AllocError>
    ensures { OnOk result (string_bytes out.new ≡ string_bytes out.old ++ line_end tile.now) }
{
    put("\" x2=\"", out)?;
    put_middle(tile, out)?;
    put("\" y2=\"", out)?;
    put_top(tile, out)?;
    put("\" stroke=\"#888\"/>\n", out)
}

/// Appends a line from a box to another one, where both are there.
fn push_line(from: Option<&Tile>, to: &Tile, out: &mut String) -> Result<(), AllocError>
    ensures { OnOk result (string_bytes out.new ≡ string_bytes out.old ++ pictures.line_from
        (option_map (λ t. t.now) from.entry) to.now) }
{
    match from {
        Some(from) => {
            push_line_begin(from, out)?;
            push_line_end(to, out)
        }
        None => Ok(()),
    }
}

/// The box at a place.
fn tile_at<'t>(tiles: &'t [Tile], at: usize) -> Option<&'t Tile>
    ensures { option_map (λ t. t.now) result ≡ slice_get tiles.now at }
{
    tiles.get(at)
}

/// Appends the line from the box right above, if there is one.
fn push_edge(
    tiles: &[Tile],
    above: Option<usize>,
    tile: &Tile,
    out: &mut String,
) -> Result<(), AllocError>
    ensures { OnOk result (string_bytes out.new ≡ string_bytes out.old ++ pictures.edge tiles.now above
        tile.now) }
{
    match above {
        Some(above) => push_line(tile_at(tiles, above), tile, out),
        None => Ok(()),
    }
}

fn push_edges(tiles: &[Tile], aboves: &[Option<usize>], out: &mut String) -> Result<(), AllocError>
    requires { length tiles.now ≡ length aboves.now }
    ensures { OnOk result (string_bytes out.new ≡ string_bytes out.old ++ pictures.edges tiles.now
        aboves.now tiles.now) }
{
    for (i, tile) in tiles.iter().enumerate() {
        push_edge(tiles, aboves[i], tile, out)?;
    }
    Ok(())
}

fn push_frame_begin(tile: &Tile, out: &mut String) -> Result<(), AllocError>
    ensures { OnOk result (string_bytes out.new ≡ string_bytes out.old ++ frame_begin tile.now) }
{
    put("<rect x=\"", out)?;
    put_long(tile.left, out)?;
    put("\" y=\"", out)?;
    put_long(row_top(tile), out)
}

fn push_frame_end(tile: &Tile, out: &mut String) -> Result<(), AllocError>
    ensures { OnOk result (string_bytes out.new ≡ string_bytes out.old ++ frame_end tile.now) }
{
    put("\" width=\"", out)?;
    put_long(tile.width as u128, out)?;
    put(
        "\" height=\"26\" rx=\"4\" fill=\"#fff\" stroke=\"#888\"/>\n",
        out,
    )
}

fn push_text_begin(tile: &Tile, out: &mut String) -> Result<(), AllocError>
    ensures { OnOk result (string_bytes out.new ≡ string_bytes out.old ++ text_begin tile.now) }
{
    put("<text x=\"", out)?;
    put_middle(tile, out)?;
    put("\" y=\"", out)?;
    put_long(row_top(tile) + 18, out)
}

fn push_text(tile: &Tile, label: &str, out: &mut String) -> Result<(), AllocError>
    ensures { OnOk result (string_bytes out.new ≡ string_bytes out.old ++ text_line tile.now label.now) }
{
    push_text_begin(tile, out)?;
    put("\" text-anchor=\"middle\">", out)?;
    push_escaped(label, out)?;
    put("</text>\n", out)
}

fn push_box(tile: &Tile, label: &str, out: &mut String) -> Result<(), AllocError>
    ensures { OnOk result (string_bytes out.new ≡ string_bytes out.old ++ pictures.box tile.now
        label.now) }
{
    push_frame_begin(tile, out)?;
    push_frame_end(tile, out)?;
    push_text(tile, label, out)
}

/// Appends a box with its text, if it is there.
fn push_box_in(tile: Option<&Tile>, label: &str, out: &mut String) -> Result<(), AllocError>
    ensures { OnOk result (string_bytes out.new ≡ string_bytes out.old ++ pictures.box_in
        (option_map (λ t. t.now) tile.entry) label.now) }
{
    match tile {
        Some(tile) => push_box(tile, label, out),
        None => Ok(()),
    }
}

fn push_boxes(tiles: &[Tile], labels: &[String], out: &mut String) -> Result<(), AllocError>
    ensures { OnOk result (string_bytes out.new ≡ string_bytes out.old ++ pictures.boxes tiles.now 0
        (map string_bytes labels.now)) }
{
    for (i, label) in labels.iter().enumerate() {
        push_box_in(tile_at(tiles, i), label.as_str(), out)?;
    }
    Ok(())
}

/// How wide and how high a picture is.
#[derive(Clone, Copy)]
struct Size {
    width: u128,
    height: u128,
}

/// What is wide and high enough for this box and a margin as well.
fn around(size: Size, tile: &Tile) -> Size
    requires { right tile.now + 10 < 2 ^ 128 }
    ensures width { result.width ≡ max size.width (right tile.now + 10) }
    ensures height { result.height ≡ max size.height (bottom tile.now + 10) }
{
    let right = tile.left + tile.width as u128 + MARGIN;
    let bottom = row_top(tile) + BOX + MARGIN;
    Size {
        width: size.width.max(right),
        height: size.height.max(bottom),
    }
}

/// What is wide and high enough for each box and a margin.
fn size_of(tiles: &[Tile]) -> Size
    requires { All (λ tile. right tile + 10 < 2 ^ 128) tiles.now }
    ensures width { IsLeast (λ tile. right tile + 10) tiles.now result.width }
    ensures height { IsLeast (λ tile. bottom tile + 10) tiles.now result.height }
{
    let mut size = Size {
        width: 0,
        height: 0,
    };
    for tile in tiles {
        size = around(size, tile);
    }
    size
}

fn put_width(size: &Size, out: &mut String) -> Result<(), AllocError>
    ensures { OnOk result (string_bytes out.new ≡ string_bytes out.old ++ decimal
        size.now.width) }
{
    put_long(size.width, out)
}

fn push_head(size: &Size, out: &mut String) -> Result<(), AllocError>
    ensures { OnOk result (string_bytes out.new ≡ string_bytes out.old ++ picture_head size.now.width
        size.now.height) }
{
    put("<svg xmlns=\"http://www.w3.org/2000/svg\" width=\"", out)?;
    put_width(size, out)?;
    put("\" height=\"", out)?;
    put_long(size.height, out)?;
    put(
        "\" font-family=\"monospace\" font-size=\"14\">\n<rect width=\"100%\" height=\"100%\" fill=\"#fff\"/>\n",
        out,
    )
}

/// The picture of boxes that have their places.
fn draw(
    alloc: Global,
    tiles: &[Tile],
    labels: &[String],
    aboves: &[Option<usize>],
) -> Result<String, AllocError>
    requires each { length tiles.now ≡ length aboves.now }
    requires near { All (λ tile. right tile + 10 < 2 ^ 128) tiles.now }
    ensures { IfOk result (λ text. IsPicture tiles.now (map string_bytes labels.now) aboves.now
        (string_bytes text)) }
{
    let size = size_of(tiles);
    let mut text = String::new(alloc);
    push_head(&size, &mut text)?;
    push_edges(tiles, aboves, &mut text)?;
    push_boxes(tiles, labels, &mut text)?;
    put("</svg>\n", &mut text)?;
    Ok(text)
}

/// The picture of some nodes.
fn picture_of(alloc: Global, nodes: &[Node<'_>]) -> Result<String, AllocError>
    ensures { IfOk result (λ text. IsDrawing nodes.now (string_bytes text)) }
{
    let boxes = boxes_of(alloc, nodes)?;
    let tiles = placed(alloc, &boxes)?;
    let text = draw(alloc, &tiles, &boxes.labels, &boxes.aboves)?;
    Ok(text)
}

/// Appends a picture: boxes in rows by depth, what is below one under its middle, subtrees as close as their outlines allow, and one tree beside the other.
pub fn push_svg(alloc: Global, nodes: &[Node<'_>], out: &mut String) -> Result<(), AllocError>
    ensures { OnOk result (AddsDrawing nodes.now (string_bytes out.old) (string_bytes out.new)) }
{
    let picture = picture_of(alloc, nodes)?;
    put(picture.as_str(), out)
}
