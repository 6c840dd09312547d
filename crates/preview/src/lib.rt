// The preview of a row: what the row call gives on a copy of the shaper, without the shape's cells.
#![tactic(auto)]

ghost use Rattle.std.specs.Prelude.{◌≡◌};
ghost use Rattle.render.specs.Entries.{listed};
ghost use Rattle.preview.specs.Promises.{preview_answer_from, Previews};

use column::{COLUMN_LIMIT, Slot};
use render::{Entries, Refusal};
use row_shape::next_row_shape;
use shaper::Shaper;

// What the preview gives: the node's column, the width of the node line, and the columns after the row, as slots and a count like the shaper's.
#[derive(Clone, Copy)]
pub struct RowPreview {
    pub node_column: usize,
    pub width: usize,
    pub slots: [Slot; COLUMN_LIMIT],
    pub count: usize,
}

impl RowPreview {
    // What a refused preview shows: column 0, width 0, and the shaper's own columns.
    pub fn refused(shaper: Shaper) -> RowPreview
        ensures { result ≡ record { node_column = 0; width = 0; slots = shaper.slots; count = shaper.count } }
    {
        let slots = shaper.slots;
        RowPreview {
            node_column: 0,
            width: 0,
            slots,
            count: shaper.count,
        }
    }
}

// The preview of a row: the row call on the copy of the shaper that is handed in.
pub fn preview(shaper: Shaper, node: u32, entries: Entries) -> Result<RowPreview, Refusal>
    ensures { Previews shaper node (listed entries) (preview_answer_from shaper result) }
{
    let next = next_row_shape(shaper, node, entries)?;
    let slots = next.shaper.slots;
    Ok(RowPreview {
        node_column: next.shape.node_column,
        width: next.shape.width,
        slots,
        count: next.shaper.count,
    })
}
