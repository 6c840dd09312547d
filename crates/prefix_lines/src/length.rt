// How long the lines are: the count before anything is written, where there is room in doubt.
ghost use Rattle.std.specs.Prelude.{◌≡◌, ◌*◌, ◌+◌, ◌≤◌, leb, length};
ghost use Rattle.column.specs.Columns.{column_limit};
ghost use Rattle.prefix_lines.specs.Inner.{frame_length, drawn_line, drawn_lines};

use crate::writer::Frame;
use column::COLUMN_LIMIT;
use glyphs::{Drawing, LINES, Line, cells_length, choose_cells, is_present};

// How many bytes a line has beside its cells.
fn frame_length(frame: Frame) -> usize
    ensures { result ≡ frame_length frame }
{
    match frame {
        Frame::Plain => 2,
        Frame::Listed => 4,
    }
}

// The length of a line in its frame; 0 where the row has none.
fn line_length(frame: Frame, table: &[u8], drawing: Drawing, line: Line) -> usize
    ensures { result ≡ length (drawn_line frame table.now drawing line) }
{
    let renderer = drawing.renderer;
    let row = drawing.row;
    if !is_present(renderer, row, line) {
        return 0;
    }
    let mut numbers = [0u8; COLUMN_LIMIT];
    let cells = choose_cells(&mut numbers, table, drawing, line);
    cells_length(table, &numbers, cells) + frame_length(frame)
}

// The length of a row's lines.
fn lines_length(frame: Frame, table: &[u8], drawing: Drawing) -> usize
    requires { drawing.width ≤ column_limit }
    ensures { result ≡ length (drawn_lines frame table.now drawing) }
{
    let mut count = 0;
    for line in &LINES {
        count += line_length(frame, table, drawing, *line);
    }
    count
}

// What a row's lines can have at most: of each line eight bytes for each cell, and the frame.
fn most_bytes(frame: Frame, width: usize) -> usize
    requires { width ≤ column_limit }
    ensures { result ≡ 9 * (8 * width + frame_length frame) }
{
    LINES.len() * (8 * width + frame_length(frame))
}

// Whether an output of so many bytes has room for all lines; they are counted only where it is shorter than they can be at most.
pub(crate) fn has_room(size: usize, frame: Frame, table: &[u8], drawing: Drawing) -> bool
    requires { drawing.width ≤ column_limit }
    ensures { result ≡ leb (length (drawn_lines frame table.now drawing)) size }
{
    if most_bytes(frame, drawing.width) <= size {
        return true;
    }
    lines_length(frame, table, drawing) <= size
}
