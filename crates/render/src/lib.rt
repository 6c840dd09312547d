// What row shapes are made of, after render.rs and types.rs.
#![tactic(auto)]

mod mark;
mod refusals;
mod render;
mod types;

pub use mark::is_mark;
pub use refusals::Refusal;
pub use render::{Ancestor, ENTRY_LIMIT, Entries, Entry, LinkLine, Marks, NodeLine, PadLine};
pub use types::{Cell, DashStyle, LinkLinePlacement, Options, RowShape, Style};
