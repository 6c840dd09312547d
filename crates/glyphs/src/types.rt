// What the renderers look at and what they give each cell, after types.rs.
use crate::Renderer;
use column::COLUMN_LIMIT;
use render::{Cell, DashStyle, LinkLine};

// The lines of a row, in their order (`PrefixLineKind` in types.rs; large ASCII draws two link lines, and a term line is two).
#[derive(Clone, Copy)]
pub enum Line {
    PreNode,
    Node,
    PostNode,
    Link,
    SecondLink,
    Term,
    SecondTerm,
    Ancestry,
    PostAncestry,
}

// What a cell is given.
#[derive(Clone, Copy)]
pub enum Choice {
    // Blanks.
    Space,
    // The solid upright.
    Solid,
    // The dashed upright.
    Dashed,
    // The node's mark.
    Mark,
    // The end of an anonymous parent's line.
    End,
    // Two or three link characters of an ASCII renderer.
    Two(u8, u8),
    Three(u8, u8, u8),
    // A link glyph's number in box drawing.
    Glyph(usize),
}

// The facts of a row that its cells' choices depend on.
#[derive(Clone, Copy)]
pub struct Row {
    pub is_head: bool,
    pub is_root: bool,
    pub merge: bool,
    pub dash_style: DashStyle,
    pub link_line: bool,
    pub term_line: bool,
    // Whether some cell of the link line has a horizontal stroke.
    pub any_horizontal: bool,
    pub has_indirect_ancestor: bool,
}

// A cell with its index, and the next cell's link, which is empty past the end.
#[derive(Clone, Copy)]
pub struct Place {
    pub index: usize,
    pub cell: Cell,
    pub next: LinkLine,
}

// What the lines of a row are drawn from; cells and width are the shape's, whose width can be any where it is made by hand.
#[derive(Clone, Copy)]
pub struct Drawing {
    pub renderer: Renderer,
    pub row: Row,
    pub mark: u8,
    pub cells: [Cell; COLUMN_LIMIT],
    pub width: usize,
}

// The numbers by which a cell is drawn that is given no link.
#[derive(Clone, Copy)]
pub struct PlainNumbers {
    pub space: u8,
    pub solid: u8,
    pub dashed: u8,
    pub mark: u8,
    pub end: u8,
}
