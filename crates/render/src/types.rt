// The styles and options of row shapes, and the row shape itself, after types.rs.
ghost use Rattle.std.specs.Prelude.{◌≡◌};
ghost use Rattle.render.specs.Lines.{node_to_pad, foot_pad, blank_cell};

use crate::render::{LinkLine, NodeLine, PadLine};
use column::COLUMN_LIMIT;

// How indirect-ancestor dash lines continue across rows.
#[derive(Clone, Copy)]
pub enum DashStyle {
    // Ancestor lines stay dashed until the branch disappears.
    Persistent,
    // Ancestor lines are dashed at most once a branch, then solid.
    Once,
}

// Where link-line padding is placed relative to the node line.
#[derive(Clone, Copy)]
pub enum LinkLinePlacement {
    Top,
    Bottom,
}

// The style of a row shape (`GraphRowShapeStyle` in types.rs).
#[derive(Clone, Copy)]
pub struct Style {
    pub dash_style: DashStyle,
    pub link_line_placement: LinkLinePlacement,
}

// The options of a shaper (`OutputRendererOptions` in output.rs).
#[derive(Clone, Copy)]
pub struct Options {
    pub min_row_height: usize,
    pub stagger_consecutive_disconnected_nodes: bool,
    pub graph_row_shape_style: Style,
}

// One column of a row shape, with its cell in each line. The marks stand first, so that a cell has no gap and is copied as one word.
#[derive(Clone, Copy)]
pub struct Cell {
    pub link: LinkLine,
    pub link_from_node: LinkLine,
    pub node: NodeLine,
    pub term: bool,
    pub ancestry: PadLine,
    pub parent: bool,
}

// An abstract graph row shape for one node (`GraphRowShape` in types.rs). Its lines are the first `width` cells;
// the parent columns are those whose cell has `parent` set. Cells and width are fixed memory.
#[derive(Clone, Copy)]
pub struct RowShape {
    pub node: u32,
    pub merge: bool,
    pub separator_line: bool,
    pub style: Style,
    pub is_head: bool,
    pub is_root: bool,
    pub node_column: usize,
    pub width: usize,
    // Whether the row has a link line, and with it the part of it that comes from the node.
    pub link_line: bool,
    // Whether the row has a term line.
    pub term_line: bool,
    pub cells: [Cell; COLUMN_LIMIT],
}

impl Cell {
    // A cell that holds nothing.
    pub fn blank() -> Cell
        ensures { result ≡ blank_cell }
    {
        Cell {
            node: NodeLine::Blank,
            link: LinkLine::EMPTY,
            link_from_node: LinkLine::EMPTY,
            term: false,
            ancestry: PadLine::Blank,
            parent: false,
        }
    }
}

impl NodeLine {
    // The pad line's cell above or below a node line's, which is blank at the node if it is a head or a root.
    pub fn to_pad_line(self, use_blank_for_node: bool) -> PadLine
        ensures { result ≡ node_to_pad use_blank_for_node self }
    {
        match self {
            NodeLine::Blank => PadLine::Blank,
            NodeLine::Ancestor => PadLine::Ancestor,
            NodeLine::Parent => PadLine::Parent,
            NodeLine::Node if use_blank_for_node => PadLine::Blank,
            NodeLine::Node => PadLine::Parent,
        }
    }
}

impl PadLine {
    // The foot line's cell below an ancestry line's: with Once dashes an ancestor's is solid already.
    pub fn to_foot_line(self, dash_style: DashStyle) -> PadLine
        ensures { result ≡ foot_pad dash_style self }
    {
        match (self, dash_style) {
            (PadLine::Ancestor, DashStyle::Once) => PadLine::Parent,
            _ => self,
        }
    }
}
