// Parent entries, the cells of node and pad lines, and the marks of link lines, after render.rs.
ghost use Rattle.std.specs.Prelude.{◌≡◌, ◌≤◌};
ghost use Rattle.render.specs.Entries.{pushed, no_entries, listed, is_too_many, is_anonymous};
ghost use Rattle.render.specs.Link.{meets, joined, only, unmarked, link_of};

// The most entries of a row, and of a record.
pub const ENTRY_LIMIT: usize = 8;

// A parent entry's kind and id (`Ancestor` in render.rs).
#[derive(Clone, Copy)]
pub enum Ancestor {
    // The node is an eventual ancestor.
    Ancestor(u32),
    // The node is an immediate parent.
    Parent(u32),
    // The node is an anonymous ancestor.
    Anonymous,
}

impl Ancestor {
    // Whether the entry has no id.
    pub fn is_anonymous(self) -> bool
        ensures { result ≡ is_anonymous self }
    {
        matches!(self, Ancestor::Anonymous)
    }
}

// A parent entry.
#[derive(Clone, Copy)]
pub struct Entry {
    pub ancestor: Ancestor,
}

// The parent entries of a row by value: the first `count` of the list, unless there were too many. The flag stands beside them since that is refused
// behind other checks, which a call has made by then.
#[derive(Clone, Copy)]
pub struct Entries {
    pub list: [Entry; ENTRY_LIMIT],
    pub count: usize,
    pub too_many: bool,
}

impl Entries {
    // No entries.
    pub fn none() -> Entries
        ensures { result ≡ no_entries }
    {
        let unused = Entry {
            ancestor: Ancestor::Anonymous,
        };
        Entries {
            list: [unused; ENTRY_LIMIT],
            count: 0,
            too_many: false,
        }
    }

    // Whether there are more than the limit.
    pub fn are_too_many(self) -> bool
        ensures { result ≡ is_too_many (listed self) }
    {
        self.too_many | (ENTRY_LIMIT < self.count)
    }

    // One entry more; past the limit there are too many.
    pub fn push(self, entry: Entry) -> Entries
        ensures { result ≡ pushed self entry }
    {
        let count = self.count;
        let mut entries = self;
        if ENTRY_LIMIT <= count {
            entries.too_many = true;
            return entries;
        }
        entries.list[count] = entry;
        entries.count = count + 1;
        entries
    }
}

// A column in the node row.
#[derive(Clone, Copy)]
pub enum NodeLine {
    // Blank.
    Blank,
    // Vertical line indicating an ancestor.
    Ancestor,
    // Vertical line indicating a parent.
    Parent,
    // The node for this row.
    Node,
}

// A column in a padding row.
#[derive(Clone, Copy)]
pub enum PadLine {
    // Blank.
    Blank,
    // Vertical line indicating an ancestor.
    Ancestor,
    // Vertical line indicating a parent.
    Parent,
}

// A column in a linking row: a set of marks.
#[derive(Clone, Copy)]
pub struct LinkLine {
    pub bits: u16,
}

// The thirteen marks of a link cell, by name.
#[derive(Clone, Copy)]
pub struct Marks {
    pub horiz_parent: bool,
    pub horiz_ancestor: bool,
    pub vert_parent: bool,
    pub vert_ancestor: bool,
    pub left_fork_parent: bool,
    pub left_fork_ancestor: bool,
    pub right_fork_parent: bool,
    pub right_fork_ancestor: bool,
    pub left_merge_parent: bool,
    pub left_merge_ancestor: bool,
    pub right_merge_parent: bool,
    pub right_merge_ancestor: bool,
    pub child: bool,
}

// The mark's bit if the cell has the mark.
fn bit(mark: LinkLine, has: bool) -> u16
    ensures { (result ≡ only has mark.bits) × (result ≤ mark.bits) }
{
    if has { mark.bits } else { 0 }
}

impl Marks {
    // No mark.
    pub fn none() -> Marks
        ensures { result ≡ unmarked }
    {
        Marks {
            horiz_parent: false,
            horiz_ancestor: false,
            vert_parent: false,
            vert_ancestor: false,
            left_fork_parent: false,
            left_fork_ancestor: false,
            right_fork_parent: false,
            right_fork_ancestor: false,
            left_merge_parent: false,
            left_merge_ancestor: false,
            right_merge_parent: false,
            right_merge_ancestor: false,
            child: false,
        }
    }

    // The set of these marks.
    pub fn link_line(self) -> LinkLine
        ensures { result ≡ link_of self }
    {
        let bits = bit(LinkLine::HORIZ_PARENT, self.horiz_parent)
            + bit(LinkLine::HORIZ_ANCESTOR, self.horiz_ancestor)
            + bit(LinkLine::VERT_PARENT, self.vert_parent)
            + bit(LinkLine::VERT_ANCESTOR, self.vert_ancestor)
            + bit(LinkLine::LEFT_FORK_PARENT, self.left_fork_parent)
            + bit(LinkLine::LEFT_FORK_ANCESTOR, self.left_fork_ancestor)
            + bit(LinkLine::RIGHT_FORK_PARENT, self.right_fork_parent)
            + bit(LinkLine::RIGHT_FORK_ANCESTOR, self.right_fork_ancestor)
            + bit(LinkLine::LEFT_MERGE_PARENT, self.left_merge_parent)
            + bit(LinkLine::LEFT_MERGE_ANCESTOR, self.left_merge_ancestor)
            + bit(LinkLine::RIGHT_MERGE_PARENT, self.right_merge_parent)
            + bit(LinkLine::RIGHT_MERGE_ANCESTOR, self.right_merge_ancestor)
            + bit(LinkLine::CHILD, self.child);
        LinkLine { bits }
    }
}

impl LinkLine {
    // No mark.
    pub const EMPTY: LinkLine = LinkLine { bits: 0 };

    // This cell contains a horizontal line that connects to a parent.
    pub const HORIZ_PARENT: LinkLine = LinkLine { bits: 1 };

    // This cell contains a horizontal line that connects to an ancestor.
    pub const HORIZ_ANCESTOR: LinkLine = LinkLine { bits: 2 };

    // The descendent of this cell is connected to the parent.
    pub const VERT_PARENT: LinkLine = LinkLine { bits: 4 };

    // The descendent of this cell is connected to an ancestor.
    pub const VERT_ANCESTOR: LinkLine = LinkLine { bits: 8 };

    // The parent of this cell is linked in this link row and the child is to the left.
    pub const LEFT_FORK_PARENT: LinkLine = LinkLine { bits: 16 };

    // The ancestor of this cell is linked in this link row and the child is to the left.
    pub const LEFT_FORK_ANCESTOR: LinkLine = LinkLine { bits: 32 };

    // The parent of this cell is linked in this link row and the child is to the right.
    pub const RIGHT_FORK_PARENT: LinkLine = LinkLine { bits: 64 };

    // The ancestor of this cell is linked in this link row and the child is to the right.
    pub const RIGHT_FORK_ANCESTOR: LinkLine = LinkLine { bits: 128 };

    // The child of this cell is linked to parents on the left.
    pub const LEFT_MERGE_PARENT: LinkLine = LinkLine { bits: 256 };

    // The child of this cell is linked to ancestors on the left.
    pub const LEFT_MERGE_ANCESTOR: LinkLine = LinkLine { bits: 512 };

    // The child of this cell is linked to parents on the right.
    pub const RIGHT_MERGE_PARENT: LinkLine = LinkLine { bits: 1024 };

    // The child of this cell is linked to ancestors on the right.
    pub const RIGHT_MERGE_ANCESTOR: LinkLine = LinkLine { bits: 2048 };

    // The target node of this link line is the child of this column.
    pub const CHILD: LinkLine = LinkLine { bits: 4096 };

    pub const HORIZONTAL: LinkLine = LinkLine {
        bits: LinkLine::HORIZ_PARENT.bits | LinkLine::HORIZ_ANCESTOR.bits,
    };

    pub const VERTICAL: LinkLine = LinkLine {
        bits: LinkLine::VERT_PARENT.bits | LinkLine::VERT_ANCESTOR.bits,
    };

    pub const LEFT_FORK: LinkLine = LinkLine {
        bits: LinkLine::LEFT_FORK_PARENT.bits | LinkLine::LEFT_FORK_ANCESTOR.bits,
    };

    pub const RIGHT_FORK: LinkLine = LinkLine {
        bits: LinkLine::RIGHT_FORK_PARENT.bits | LinkLine::RIGHT_FORK_ANCESTOR.bits,
    };

    pub const LEFT_MERGE: LinkLine = LinkLine {
        bits: LinkLine::LEFT_MERGE_PARENT.bits | LinkLine::LEFT_MERGE_ANCESTOR.bits,
    };

    pub const RIGHT_MERGE: LinkLine = LinkLine {
        bits: LinkLine::RIGHT_MERGE_PARENT.bits | LinkLine::RIGHT_MERGE_ANCESTOR.bits,
    };

    pub const ANY_MERGE: LinkLine = LinkLine {
        bits: LinkLine::LEFT_MERGE.bits | LinkLine::RIGHT_MERGE.bits,
    };

    pub const ANY_FORK: LinkLine = LinkLine {
        bits: LinkLine::LEFT_FORK.bits | LinkLine::RIGHT_FORK.bits,
    };

    pub const ANY_FORK_OR_MERGE: LinkLine = LinkLine {
        bits: LinkLine::ANY_MERGE.bits | LinkLine::ANY_FORK.bits,
    };

    // Whether some mark is in both sets.
    pub fn intersects(self, other: LinkLine) -> bool
        ensures { result ≡ meets self other }
    {
        self.bits & other.bits != 0
    }

    // The marks of either set.
    pub fn union(self, other: LinkLine) -> LinkLine
        ensures { result ≡ joined self other }
    {
        LinkLine {
            bits: self.bits | other.bits,
        }
    }
}
