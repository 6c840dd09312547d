// The renderer call, after row_shape_to_prefix_lines.rs, and the same lines in the listing program's form.
#![tactic(auto)]

ghost use Rattle.std.specs.Prelude.{◌≡◌, ◌≤◌};
ghost use Rattle.column.specs.Columns.{column_limit};
ghost use Rattle.prefix_lines.specs.Inner.{drawn_lines, framed_answer, room_refusal};
ghost use Rattle.prefix_lines.specs.Listing.{listing};
ghost use Rattle.prefix_lines.specs.PrefixLines.{answer_of, answered, next_prefix_lines};

mod length;
mod writer;

use column::COLUMN_LIMIT;
use glyphs::{Drawing, Renderer, ascii_table, box_table, drawing_of, large_table};
use length::has_room;
use render::{Refusal, RowShape, is_mark};
use writer::{Frame, write_lines};

// Writes each line of a drawing in its frame out of a table, if the output has room for them. Here and in the modules below these three go one by
// one: a struct that lends them, with the bound on the width in it, took 440 to 560 instructions more for a row's lines.
fn write_with(
    out: &mut [u8],
    frame: Frame,
    table: &[u8],
    drawing: Drawing,
) -> Result<usize, Refusal>
    requires { drawing.width ≤ column_limit }
    ensures { answer_of result out.new ≡ answered (room_refusal (drawn_lines frame table.now drawing) out.old) (drawn_lines frame table.now drawing) out.old }
{
    if !has_room(out.len(), frame, table, drawing) {
        return Err(Refusal::OutputShorterThanLines);
    }
    Ok(write_lines(out, frame, table, drawing))
}

// Writes each line of a shape in its frame. Each renderer's table has its own size and is lent where it is made: a function that hands it to a
// closure would have to ask for the closure's `pre`, and no public function of `glyphs` has a `requires`.
fn write_shape(
    out: &mut [u8],
    frame: Frame,
    shape: RowShape,
    renderer: Renderer,
    mark: u8,
) -> Result<usize, Refusal>
    ensures { answer_of result out.new ≡ framed_answer frame shape renderer mark out.old }
{
    if !is_mark(mark) {
        return Err(Refusal::MarkOutsideSpan);
    }
    if COLUMN_LIMIT < shape.width {
        return Err(Refusal::ShapeTooWide);
    }
    let drawing = drawing_of(shape, renderer, mark);
    match renderer {
        Renderer::Ascii => {
            let table = ascii_table(mark);
            write_with(out, frame, &table, drawing)
        }
        Renderer::AsciiLarge => {
            let table = large_table(mark);
            write_with(out, frame, &table, drawing)
        }
        Renderer::Square | Renderer::Curved | Renderer::Dec => {
            let table = box_table(renderer, mark);
            write_with(out, frame, &table, drawing)
        }
    }
}

// Writes each line of a shape as its kind letter, the line with the mark in place, and 0A.
pub fn next_prefix_lines(
    shape: RowShape,
    renderer: Renderer,
    mark: u8,
    out: &mut [u8],
) -> Result<usize, Refusal>
    ensures { answer_of result out.new ≡ next_prefix_lines shape renderer mark out.old }
{
    write_shape(out, Frame::Plain, shape, renderer, mark)
}

// Writes each ASCII line of a shape as its kind letter, a colon, the line with the mark in place, `$`, and 0A.
pub fn write_listing(shape: RowShape, mark: u8, out: &mut [u8]) -> Result<usize, Refusal>
    ensures { answer_of result out.new ≡ listing shape mark out.old }
{
    write_shape(out, Frame::Listed, shape, Renderer::Ascii, mark)
}
