// The text call, after graph_text_renderer.rs.
ghost use Rattle.std.specs.Prelude.{◌≡◌, min};
ghost use Rattle.shaper.specs.Shaper.{height_limit};
ghost use Rattle.text.specs.Promises.{text_answer_from, Texts};

use crate::prefix_lines_to_text::write_row_text;
use glyphs::Renderer;
use message::{MESSAGE_LIMIT, are_writable};
use output::TextState;
use render::{Entries, Refusal, is_mark};
use row_shape::next_row_shape;
use shaper::{HEIGHT_LIMIT, Shaper};

// What the text call gives beside the output: the count of bytes written, the line measure, and both states after it.
#[derive(Clone, Copy)]
pub struct NextText {
    pub length: usize,
    pub measure: usize,
    pub shaper: Shaper,
    pub state: TextState,
}

// The minimum row height; one above the limit is read as the limit.
fn min_row_height(shaper: Shaper) -> usize
    ensures { result ≡ min shaper.options.min_row_height height_limit }
{
    shaper.options.min_row_height.min(HEIGHT_LIMIT)
}

// The text call: the next node as lines of text. Its parameters are document 01's, one by one, here and in the lent forms.
pub fn write_next_text(
    shaper: Shaper,
    state: TextState,
    renderer: Renderer,
    node: u32,
    entries: Entries,
    mark: u8,
    message: &[u8],
    out: &mut [u8],
) -> Result<NextText, Refusal>
    ensures { Texts shaper state renderer node entries mark message.now out.old out.new (text_answer_from shaper state result) }
{
    if !is_mark(mark) {
        return Err(Refusal::MarkOutsideSpan);
    }
    if MESSAGE_LIMIT < message.len() {
        return Err(Refusal::MessageTooLong);
    }
    if !are_writable(message) {
        return Err(Refusal::MessageByteNotWritable);
    }
    let given = next_row_shape(shaper, node, entries)?;
    let height = min_row_height(shaper);
    let written = write_row_text(out, given.shape, renderer, mark, message, height, state)?;
    Ok(NextText {
        length: written.length,
        measure: written.measure,
        shaper: given.shaper,
        state: written.state,
    })
}
