// Text: the lines of a row with its message, and the text call.
#![tactic(auto)]

mod graph_text_renderer;
mod lines;
mod prefix_lines_to_text;
mod row_lines;

pub use graph_text_renderer::{NextText, write_next_text};
pub use lines::Lengths;
pub use prefix_lines_to_text::{Counted, Plan, RowPut, WrittenRow};
