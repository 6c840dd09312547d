// Values as they are printed.
use column::{Column, Slot};
use render::{Ancestor, DashStyle, Entry, LinkLine, LinkLinePlacement, NodeLine, PadLine};
use std::fmt;
use std::fmt::{Display, Formatter};

// A flag.
#[derive(Clone, Copy)]
pub(crate) struct Flag(pub(crate) bool);

// A style's dash style.
#[derive(Clone, Copy)]
pub(crate) struct Dash(pub(crate) DashStyle);

// A style's link placement.
#[derive(Clone, Copy)]
pub(crate) struct Placement(pub(crate) LinkLinePlacement);

// A column's place, if there is one.
#[derive(Clone, Copy)]
pub(crate) struct Place(pub(crate) Option<usize>);

// A column, and the node that it carries.
#[derive(Clone, Copy)]
pub(crate) struct Held(pub(crate) Slot);

// A parent entry.
#[derive(Clone, Copy)]
pub(crate) struct Named(pub(crate) Entry);

// A node line's cell.
#[derive(Clone, Copy)]
pub(crate) struct Node(pub(crate) NodeLine);

// An ancestry line's cell.
#[derive(Clone, Copy)]
pub(crate) struct Pad(pub(crate) PadLine);

// A link line's cell.
#[derive(Clone, Copy)]
pub(crate) struct Link(pub(crate) LinkLine);

// The marks of a link cell by name, in the order of their bits.
const MARKS: [(&str, LinkLine); 13] = [
    ("HORIZ_PARENT", LinkLine::HORIZ_PARENT),
    ("HORIZ_ANCESTOR", LinkLine::HORIZ_ANCESTOR),
    ("VERT_PARENT", LinkLine::VERT_PARENT),
    ("VERT_ANCESTOR", LinkLine::VERT_ANCESTOR),
    ("LEFT_FORK_PARENT", LinkLine::LEFT_FORK_PARENT),
    ("LEFT_FORK_ANCESTOR", LinkLine::LEFT_FORK_ANCESTOR),
    ("RIGHT_FORK_PARENT", LinkLine::RIGHT_FORK_PARENT),
    ("RIGHT_FORK_ANCESTOR", LinkLine::RIGHT_FORK_ANCESTOR),
    ("LEFT_MERGE_PARENT", LinkLine::LEFT_MERGE_PARENT),
    ("LEFT_MERGE_ANCESTOR", LinkLine::LEFT_MERGE_ANCESTOR),
    ("RIGHT_MERGE_PARENT", LinkLine::RIGHT_MERGE_PARENT),
    ("RIGHT_MERGE_ANCESTOR", LinkLine::RIGHT_MERGE_ANCESTOR),
    ("CHILD", LinkLine::CHILD),
];

impl Display for Flag {
    fn fmt<W: fmt::Write>(&self, f: &mut Formatter<W>) -> fmt::Result {
        f.write_str(if self.0 { "yes" } else { "no" })
    }
}

impl Display for Dash {
    fn fmt<W: fmt::Write>(&self, f: &mut Formatter<W>) -> fmt::Result {
        f.write_str(match self.0 {
            DashStyle::Persistent => "Persistent",
            DashStyle::Once => "Once",
        })
    }
}

impl Display for Placement {
    fn fmt<W: fmt::Write>(&self, f: &mut Formatter<W>) -> fmt::Result {
        f.write_str(match self.0 {
            LinkLinePlacement::Top => "Top",
            LinkLinePlacement::Bottom => "Bottom",
        })
    }
}

impl Display for Place {
    fn fmt<W: fmt::Write>(&self, f: &mut Formatter<W>) -> fmt::Result {
        match self.0 {
            Some(index) => write!(f, "{index}"),
            None => f.write_str("none"),
        }
    }
}

impl Display for Held {
    fn fmt<W: fmt::Write>(&self, f: &mut Formatter<W>) -> fmt::Result {
        let Slot { column, origin } = self.0;
        match column {
            Column::Empty => f.write_str("Empty"),
            Column::Blocked => f.write_str("Blocked"),
            Column::Reserved(id) => write!(f, "Reserved {id}"),
            Column::Ancestor(id) => write!(f, "Ancestor {id} by {origin}"),
            Column::Parent(id) => write!(f, "Parent {id} by {origin}"),
        }
    }
}

impl Display for Named {
    fn fmt<W: fmt::Write>(&self, f: &mut Formatter<W>) -> fmt::Result {
        match self.0.ancestor {
            Ancestor::Anonymous => f.write_str("Anonymous"),
            Ancestor::Ancestor(id) => write!(f, "Ancestor {id}"),
            Ancestor::Parent(id) => write!(f, "Parent {id}"),
        }
    }
}

impl Display for Node {
    fn fmt<W: fmt::Write>(&self, f: &mut Formatter<W>) -> fmt::Result {
        f.write_str(match self.0 {
            NodeLine::Blank => "Blank",
            NodeLine::Ancestor => "Ancestor",
            NodeLine::Parent => "Parent",
            NodeLine::Node => "Node",
        })
    }
}

impl Display for Pad {
    fn fmt<W: fmt::Write>(&self, f: &mut Formatter<W>) -> fmt::Result {
        f.write_str(match self.0 {
            PadLine::Blank => "Blank",
            PadLine::Ancestor => "Ancestor",
            PadLine::Parent => "Parent",
        })
    }
}

impl Display for Link {
    fn fmt<W: fmt::Write>(&self, f: &mut Formatter<W>) -> fmt::Result {
        let link = self.0;
        if !MARKS.iter().any(|(_, mark)| link.intersects(*mark)) {
            return f.write_str("-");
        }
        let names = MARKS
            .iter()
            .filter(|(_, mark)| link.intersects(*mark))
            .map(|(name, _)| *name);
        f.write_joined(names, "+")
    }
}
