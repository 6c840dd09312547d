// The public calls: reserving, row, preview, width and text in lent forms, each thin over its by-value core; the others are passed on as they are.
#![tactic(auto)]

ghost use Rattle.preview.specs.Promises.{preview_answer_from};
ghost use Rattle.width.specs.Width.{width_answer_from};
ghost use Rattle.lineage.specs.Promises.{refusal_from, shape_answer_from, length_answer_from, Copies, LentReserves, LentRows, LentPreview, LentWidth, LentOrigin, LentTexts};

use render::Entries;
use row_shape::next_row_shape;
use text::write_next_text;

// The new shaper call is `Shaper::with_options`; why a call turns back is a `Refusal`. What a refused call gives beside it, where that is no 0: `Shaper::refused`,
// `no_shape`, `RowPreview::refused` and `Record::none`.
pub use column::{Column, Slot, Started};
pub use render::{DashStyle, LinkLinePlacement, Options, Refusal, Style};
pub use shaper::Shaper;

// What the row, preview, width and text calls take and give.
pub use glyphs::Renderer;
pub use output::TextState;
pub use preview::RowPreview;
pub use render::{Ancestor, Cell, Entry, LinkLine, NodeLine, PadLine, RowShape};
pub use row_shape::no_shape;

// The renderer call, and what it gives: the count of bytes written.
pub use prefix_lines::next_prefix_lines;

pub type LinesAnswer = Result<usize, Refusal>;

// The record call.
pub use record::{Record, next_record};

// What the text call gives: the count of bytes written and the line measure.
#[derive(Clone, Copy)]
pub struct TextLength {
    pub length: usize,
    pub measure: usize,
}

// The reserving call on a lent shaper.
pub fn reserve(shaper: &mut Shaper, node: u32) -> Result<(), Refusal>
    ensures { LentReserves shaper.old node shaper.new (refusal_from result) }
{
    *shaper = shaper.reserve(node)?;
    Ok(())
}

// The entries of a lent list by value; past 8 there are too many.
pub fn copy_entries(list: &[Entry]) -> Entries
    ensures { Copies list.now result }
{
    list.iter()
        .fold(Entries::none(), |entries, entry| entries.push(*entry))
}

// The row call on a lent shaper and a lent list of parent entries.
pub fn row(shaper: &mut Shaper, node: u32, entries: &[Entry]) -> Result<RowShape, Refusal>
    ensures { LentRows shaper.old node entries.now shaper.new (shape_answer_from result) }
{
    let next = next_row_shape(*shaper, node, copy_entries(entries))?;
    *shaper = next.shaper;
    Ok(next.shape)
}

// The preview of a row on a lent shaper and a lent list of parent entries.
pub fn preview(shaper: &Shaper, node: u32, entries: &[Entry]) -> Result<RowPreview, Refusal>
    ensures { LentPreview shaper.now node entries.now (preview_answer_from shaper.now result) }
{
    preview::preview(*shaper, node, copy_entries(entries))
}

// The width call on a lent shaper and a lent list of parent entries.
pub fn width(shaper: &Shaper, node: Option<u32>, entries: &[Entry]) -> Result<usize, Refusal>
    ensures { LentWidth shaper.now node entries.now (width_answer_from result) }
{
    width::width(*shaper, node, copy_entries(entries))
}

// Who started the line of an id on a lent shaper.
pub fn origin(shaper: &Shaper, node: u32) -> Started
    ensures { LentOrigin shaper.now node result }
{
    shaper.origin(node)
}

// The text call on a lent shaper, a lent text state, a lent list of parent entries, a lent message and the output.
pub fn text(
    shaper: &mut Shaper,
    state: &mut TextState,
    renderer: Renderer,
    node: u32,
    entries: &[Entry],
    mark: u8,
    message: &[u8],
    out: &mut [u8],
) -> Result<TextLength, Refusal>
    ensures { LentTexts shaper.old state.old renderer node entries.now mark message.now out.old shaper.new state.new out.new (length_answer_from result) }
{
    let copied = copy_entries(entries);
    let given = write_next_text(*shaper, *state, renderer, node, copied, mark, message, out)?;
    *shaper = given.shaper;
    *state = given.state;
    Ok(TextLength {
        length: given.length,
        measure: given.measure,
    })
}
