// What each cell is given in each line, and the number by which it is drawn, in all renderers.
ghost use Rattle.std.specs.Prelude.{◌≡◌, cond, ◌+◌, ◌<◌, drop, length, ltb};
ghost use Rattle.glyphs.specs.Cells.{link_choice, second_link_choice};
ghost use Rattle.glyphs.specs.Choices.{pad_choice, node_choice};
ghost use Rattle.glyphs.specs.Inner.{glyph_of, is_link, link_line_choice, Plain, plain_choice, plain_number};
ghost use Rattle.glyphs.specs.LinkTable.{named};
ghost use Rattle.glyphs.specs.Row.{first_link};
ghost use Rattle.glyphs.specs.Tables.{number_of, numbers_in, Chooses};

use crate::types::{Choice, Drawing, Line, Place, PlainNumbers, Row};
use crate::{Renderer, ascii, ascii_large, box_drawing};
use column::COLUMN_LIMIT;
use render::{Cell, DashStyle, LinkLine, NodeLine, PadLine};

// A link line's choice.
fn link_choice(table: &[u8], renderer: Renderer, row: Row, place: Place) -> Choice
    ensures { (result ≡ link_choice (named table.now) renderer row place) × (glyph_of result < 256) }
{
    let cell = place.cell;
    let cur = cell.link;
    let next = place.next;
    let dash_style = row.dash_style;
    match renderer {
        Renderer::Ascii => Choice::Two(
            ascii::link_upright(row, cur),
            ascii::link_connection(row, cur, next),
        ),
        Renderer::AsciiLarge => ascii_large::top(dash_style, place.index, cur),
        Renderer::Square | Renderer::Curved | Renderer::Dec => {
            Choice::Glyph(box_drawing::link_glyph(table, row.merge, cur))
        }
    }
}

// A second link line's choice, in large ASCII alone.
fn second_link_choice(renderer: Renderer, row: Row, place: Place) -> Choice
    ensures { result ≡ second_link_choice renderer row place }
{
    let cell = place.cell;
    let cur = cell.link;
    let dash_style = row.dash_style;
    match renderer {
        Renderer::AsciiLarge => ascii_large::bottom(dash_style, place.index, cur),
        Renderer::Ascii | Renderer::Square | Renderer::Curved | Renderer::Dec => Choice::Space,
    }
}

// The next cell's link, empty past the end.
fn next_link(cells: &[Cell], i: usize) -> LinkLine
    requires { i < length cells.now }
    ensures { result ≡ first_link (drop (i + 1) cells.now) }
{
    match cells.get(i + 1) {
        Some(after) => after.link,
        None => LinkLine::EMPTY,
    }
}

// The number by which a renderer draws what a cell was given. A trait of the renderers would be no plainer: its three impls differ in every arm
// and in what they are given, and this match would choose the impl.
#[tactic(auto, unfolding(crate::specs::Tables::number_of))]
fn number_of(renderer: Renderer, dash_style: DashStyle, index: usize, choice: Choice) -> usize
    ensures { result ≡ number_of renderer dash_style index choice }
{
    match renderer {
        Renderer::Ascii => ascii::number(choice, dash_style),
        Renderer::AsciiLarge => ascii_large::number(choice, dash_style, index),
        Renderer::Square | Renderer::Curved | Renderer::Dec => box_drawing::number(
            choice, dash_style,
        ),
    }
}

// The numbers of a renderer's cell that is given no link, written out in each renderer: five calls of `number_of` cost 740 instructions more for a row's lines.
fn plain_numbers(renderer: Renderer, dash_style: DashStyle, index: usize) -> PlainNumbers
    ensures { Plain renderer dash_style index result }
{
    match renderer {
        Renderer::Ascii => ascii::plain_numbers(dash_style),
        Renderer::AsciiLarge => ascii_large::plain_numbers(dash_style, index),
        Renderer::Square | Renderer::Curved | Renderer::Dec => box_drawing::plain_numbers(
            dash_style,
        ),
    }
}

// Those of a cell, where those of the first cell and of the others are known.
fn numbers_at(first: PlainNumbers, others: PlainNumbers, index: usize) -> PlainNumbers
    ensures { result ≡ cond (ltb 0 index) others first }
{
    if 0 < index { others } else { first }
}

// The number of a pad line's cell.
fn pad_number(numbers: PlainNumbers, pad: PadLine) -> u8
    ensures { result ≡ plain_number numbers (pad_choice pad) }
{
    match pad {
        PadLine::Blank => numbers.space,
        PadLine::Ancestor => numbers.dashed,
        PadLine::Parent => numbers.solid,
    }
}

// The number of a node line's cell.
fn node_number(numbers: PlainNumbers, node: NodeLine) -> u8
    ensures { result ≡ plain_number numbers (node_choice node) }
{
    match node {
        NodeLine::Blank => numbers.space,
        NodeLine::Ancestor => numbers.dashed,
        NodeLine::Parent => numbers.solid,
        NodeLine::Node => numbers.mark,
    }
}

// The number of a term line's cell: the line's own at an end, else the ancestry line's.
fn term_number(numbers: PlainNumbers, end: u8, cell: Cell) -> u8
    ensures { result ≡ cond cell.term end (plain_number numbers (pad_choice cell.ancestry)) }
{
    if cell.term {
        return end;
    }
    let ancestry = cell.ancestry;
    pad_number(numbers, ancestry)
}

// The number by which a cell of a line is drawn that is no link line.
fn plain_number(numbers: PlainNumbers, row: Row, line: Line, cell: Cell) -> u8
    ensures { result ≡ plain_number numbers (plain_choice row line cell) }
{
    let node = cell.node;
    let ancestry = cell.ancestry;
    let dash_style = row.dash_style;
    match line {
        Line::PreNode => pad_number(numbers, node.to_pad_line(row.is_head)),
        Line::Node => node_number(numbers, node),
        Line::PostNode => pad_number(numbers, node.to_pad_line(row.is_root)),
        Line::Link | Line::SecondLink => numbers.space,
        Line::Term => term_number(numbers, numbers.solid, cell),
        Line::SecondTerm => term_number(numbers, numbers.end, cell),
        Line::Ancestry => pad_number(numbers, ancestry),
        Line::PostAncestry => pad_number(numbers, ancestry.to_foot_line(dash_style)),
    }
}

// What a cell is given in a link line, a blank in another.
fn link_line_choice(table: &[u8], renderer: Renderer, row: Row, line: Line, place: Place) -> Choice
    ensures { (result ≡ link_line_choice (named table.now) renderer row line place) × (glyph_of result < 256) }
{
    match line {
        Line::Link => link_choice(table, renderer, row, place),
        Line::SecondLink => second_link_choice(renderer, row, place),
        Line::PreNode
        | Line::Node
        | Line::PostNode
        | Line::Term
        | Line::SecondTerm
        | Line::Ancestry
        | Line::PostAncestry => Choice::Space,
    }
}

// The number by which a cell of a link line is drawn.
#[tactic(auto, using(crate::proofs::TableLaws::number_small))]
fn link_number(table: &[u8], renderer: Renderer, row: Row, line: Line, place: Place) -> u8
    ensures { result ≡ number_of renderer row.dash_style place.index (link_line_choice (named table.now) renderer row line place) }
{
    let dash_style = row.dash_style;
    let choice = link_line_choice(table, renderer, row, line, place);
    number_of(renderer, dash_style, place.index, choice) as u8
}

// Whether a line is a link line.
fn is_link(line: Line) -> bool
    ensures { result ≡ is_link line }
{
    matches!(line, Line::Link | Line::SecondLink)
}

// Chooses the glyphs of a line, a number for each cell, as many as there is room for, and gives their count; a box drawing renderer's link
// cells by the entries of the lent table.
pub fn choose_cells(numbers: &mut [u8], table: &[u8], drawing: Drawing, line: Line) -> usize
    ensures { Chooses (numbers_in table.now drawing line) numbers.old numbers.new result }
{
    let renderer = drawing.renderer;
    let row = drawing.row;
    let cells = &drawing.cells[..drawing.width.min(COLUMN_LIMIT)];
    let count = cells.len().min(numbers.len());
    if is_link(line) {
        for (i, cell) in cells[..count].iter().enumerate() {
            let place = Place {
                index: i,
                cell: *cell,
                next: next_link(cells, i),
            };
            numbers[i] = link_number(table, renderer, row, line, place);
        }
        return count;
    }
    let first = plain_numbers(renderer, row.dash_style, 0);
    let others = plain_numbers(renderer, row.dash_style, 1);
    for (i, cell) in cells[..count].iter().enumerate() {
        numbers[i] = plain_number(numbers_at(first, others, i), row, line, *cell);
    }
    count
}
