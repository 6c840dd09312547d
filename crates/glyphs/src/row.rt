// The facts of a row, and which lines it has.
ghost use Rattle.std.specs.Prelude.{◌≡◌, get_or};
ghost use Rattle.glyphs.specs.Cells.{all_lines, is_large, is_present};
ghost use Rattle.std.specs.List.{list_any};
ghost use Rattle.glyphs.specs.Row.{is_horizontal, is_indirect, row_of, drawing_of};

use crate::Renderer;
use crate::types::{Drawing, Line, Row};
use column::COLUMN_LIMIT;
use render::{Cell, LinkLine, PadLine, RowShape};

// The lines that a row can have, in their order.
pub const LINES: [Line; 9] = [
    Line::PreNode,
    Line::Node,
    Line::PostNode,
    Line::Link,
    Line::SecondLink,
    Line::Term,
    Line::SecondTerm,
    Line::Ancestry,
    Line::PostAncestry,
];

// Whether the ancestry line contains an indirect ancestor edge.
fn has_indirect_ancestor(cells: &[Cell]) -> bool
    ensures { result ≡ list_any is_indirect cells.now }
{
    cells
        .iter()
        .any(|cell| matches!(cell.ancestry, PadLine::Ancestor))
}

// Whether some cell of the link line has a horizontal stroke.
fn any_horizontal(cells: &[Cell]) -> bool
    ensures { result ≡ list_any is_horizontal cells.now }
{
    cells
        .iter()
        .any(|cell| cell.link.intersects(LinkLine::HORIZONTAL))
}

// The facts of a shape that its lines depend on; a width past the room for cells takes all of them.
pub fn row_of(shape: RowShape) -> Row
    ensures { result ≡ row_of shape }
{
    let cells = &shape.cells[..shape.width.min(COLUMN_LIMIT)];
    Row {
        is_head: shape.is_head,
        is_root: shape.is_root,
        merge: shape.merge,
        dash_style: shape.style.dash_style,
        link_line: shape.link_line,
        term_line: shape.term_line,
        any_horizontal: any_horizontal(cells),
        has_indirect_ancestor: has_indirect_ancestor(cells),
    }
}

// What the lines of a shape are drawn from.
pub fn drawing_of(shape: RowShape, renderer: Renderer, mark: u8) -> Drawing
    ensures { result ≡ drawing_of shape renderer mark }
{
    let cells = shape.cells;
    Drawing {
        renderer,
        row: row_of(shape),
        mark,
        cells,
        width: shape.width,
    }
}

// The line at a place of the order; past the end, the last.
pub fn line_at(k: usize) -> Line
    ensures { result ≡ get_or all_lines k Line.PostAncestry }
{
    let Some(line) = LINES.get(k) else {
        return Line::PostAncestry;
    };
    *line
}

// Whether the renderer is large ASCII, which draws a second link line, and a cell by three bytes.
pub fn is_large(renderer: Renderer) -> bool
    ensures { result ≡ is_large renderer }
{
    matches!(renderer, Renderer::AsciiLarge)
}

// Whether the row has the line.
pub fn is_present(renderer: Renderer, row: Row, line: Line) -> bool
    ensures { result ≡ is_present renderer row line }
{
    match line {
        Line::PreNode | Line::Node | Line::PostNode | Line::PostAncestry => true,
        Line::Link => row.link_line,
        Line::SecondLink => row.link_line && is_large(renderer),
        Line::Term | Line::SecondTerm => row.term_line,
        Line::Ancestry => row.has_indirect_ancestor,
    }
}
