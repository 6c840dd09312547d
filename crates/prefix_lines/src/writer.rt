// The writers: each is lent the unwritten part of the output, and gives the count written.
ghost use Rattle.std.specs.Prelude.{◌≡◌, ◌≤◌, length};
ghost use Rattle.column.specs.Columns.{column_limit};
ghost use Rattle.prefix_lines.specs.Inner.{closing, drawn_line, drawn_lines, opening};
ghost use Rattle.prefix_lines.specs.PrefixLines.{letter};
ghost use Rattle.slices.specs.Joins.{over};

use column::COLUMN_LIMIT;
use glyphs::{Drawing, LINES, Line, choose_cells, is_present, write_cells};

// What stands around a line's cells: the letter and the end, in a listing a colon and `$` too. Two cases of one or two bytes: a trait with two
// impls would be longer.
#[derive(Clone, Copy)]
pub(crate) enum Frame {
    Plain,
    Listed,
}

// The kind letter.
fn kind_letter(line: Line) -> u8
    ensures { result ≡ letter line }
{
    match line {
        Line::PreNode => b'P',
        Line::Node => b'N',
        Line::PostNode => b'Q',
        Line::Link | Line::SecondLink => b'L',
        Line::Term | Line::SecondTerm => b'T',
        Line::Ancestry => b'A',
        Line::PostAncestry => b'Z',
    }
}

// Writes what stands before a line's cells, and gives the count of its bytes.
fn write_opening(out: &mut [u8], frame: Frame, line: Line) -> usize
    requires { length (opening frame line) ≤ length out.old }
    ensures { (result ≡ length (opening frame line)) × (out.new ≡ over (opening frame line) out.old) }
{
    out[0] = kind_letter(line);
    let Frame::Listed = frame else {
        return 1;
    };
    out[1] = b':';
    2
}

// How many bytes stand behind them.
fn closing_length(frame: Frame) -> usize
    ensures { result ≡ length (closing frame) }
{
    match frame {
        Frame::Plain => 1,
        Frame::Listed => 2,
    }
}

// Writes what stands behind them, and gives the count of its bytes.
fn write_closing(out: &mut [u8], frame: Frame) -> usize
    requires { length (closing frame) ≤ length out.old }
    ensures { (result ≡ length (closing frame)) × (out.new ≡ over (closing frame) out.old) }
{
    let Frame::Listed = frame else {
        out[0] = b'\n';
        return 1;
    };
    out[0] = b'$';
    out[1] = b'\n';
    2
}

// Writes a line in its frame, where the row has it, and gives the count of its bytes.
fn write_line(
    out: &mut [u8],
    frame: Frame,
    table: &[u8],
    numbers: &mut [u8],
    drawing: Drawing,
    line: Line,
) -> usize
    requires numbers_len { length numbers.old ≡ column_limit }
    requires line_in_bounds { length (drawn_line frame table.now drawing line) ≤ length out.old }
    ensures { (result ≡ length (drawn_line frame table.now drawing line))
        × (out.new ≡ over (drawn_line frame table.now drawing line) out.old) }
{
    let renderer = drawing.renderer;
    let row = drawing.row;
    if !is_present(renderer, row, line) {
        return 0;
    }
    let cells = choose_cells(numbers, table, drawing, line);
    let start = write_opening(out, frame, line);
    let behind = closing_length(frame);
    let end = start + write_cells(&mut out[start..], table, numbers, cells, behind);
    end + write_closing(&mut out[end..], frame)
}

// Writes a row's lines, and gives the count of their bytes.
pub(crate) fn write_lines(out: &mut [u8], frame: Frame, table: &[u8], drawing: Drawing) -> usize
    requires { length (drawn_lines frame table.now drawing) ≤ length out.old }
    ensures { (result ≡ length (drawn_lines frame table.now drawing))
        × (out.new ≡ over (drawn_lines frame table.now drawing) out.old) }
{
    let mut numbers = [0u8; COLUMN_LIMIT];
    let mut at = 0;
    for line in &LINES {
        at += write_line(&mut out[at..], frame, table, &mut numbers, drawing, *line);
    }
    at
}
