// What each cell of each prefix line is given, and its bytes, in the five renderers, after ascii.rs, ascii_large.rs and box_drawing.rs.
#![tactic(auto)]

mod ascii;
mod ascii_large;
mod box_drawing;
mod choice;
mod row;
mod table;
mod types;

pub use ascii::{ASCII_TABLE, ascii_table};
pub use ascii_large::{LARGE_TABLE, large_table};
pub use box_drawing::{BOX_TABLE, box_table};
pub use choice::choose_cells;
pub use row::{LINES, drawing_of, is_large, is_present, line_at, row_of};
pub use table::{cells_length, trailing_blanks, write_cells, write_finished};
pub use types::{Choice, Drawing, Line, Place, Row};

// The five renderers.
#[derive(Clone, Copy)]
pub enum Renderer {
    Ascii,
    AsciiLarge,
    Square,
    Curved,
    Dec,
}
