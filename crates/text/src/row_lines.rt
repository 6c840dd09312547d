// What a row's lines are drawn from.
ghost use Rattle.std.specs.Prelude.{◌≡◌, ◌≤◌, length};
ghost use Rattle.column.specs.Columns.{column_limit};
ghost use Rattle.message.specs.Message.{message_limit};
ghost use Rattle.text.specs.Inner.{fixed_lines};

use crate::prefix_lines_to_text::Plan;
use glyphs::Drawing;

// A row's lines with its message: the table that their glyphs are read from, the row as it is drawn, how its lines are repeated, and the message.
#[derive(Clone, Copy)]
pub(crate) struct RowLines<'a> {
    pub(crate) table: &'a [u8],
    pub(crate) drawing: Drawing,
    pub(crate) plan: Plan,
    pub(crate) message: &'a [u8],
    ghost width_bound: { drawing.width ≤ column_limit },
    ghost message_bound: { length message.now ≤ message_limit },
    ghost fixed_bound: { plan.fixed ≤ 6 },
    ghost needed_bound: { plan.needed ≤ message_limit },
    ghost fixed_value: { plan.fixed ≡ fixed_lines drawing.renderer drawing.row },
}
