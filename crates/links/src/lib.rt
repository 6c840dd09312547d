// The marks of a row's link line, after graph_to_row_shape.rs.
#![tactic(auto)]

ghost use Rattle.std.specs.Prelude.{◌≡◌, cond, ◌+◌, min};
ghost use Rattle.render.specs.Link.{strokes};
ghost use Rattle.links.specs.Links.{drawn_by, is_drawn, is_directly_drawn, is_indirectly_drawn, is_anonymously_drawn, bounds_of, passes_solid, passes_dashed, from_node, with_uprights, linked};
ghost use Rattle.links.specs.Inner.{kinds, reaching as reaching_of, reach_start, reach_last};

use column::{COLUMN_LIMIT, Column};
use render::{Ancestor, Marks};

// Who draws in a column, by its kind: the last entry that met it, an Anonymous one too, or nobody (the `BTreeMap` of parents).
#[derive(Clone, Copy)]
pub enum Drawn {
    Nobody,
    Indirect,
    Direct,
    Anonymous,
}

// How far the entries' columns reach from the node's.
#[derive(Clone, Copy)]
pub struct AncestorColumnBounds {
    pub target: usize,
    pub min_ancestor: usize,
    pub min_parent: usize,
    pub max_parent: usize,
    pub max_ancestor: usize,
}

// The column that a single entry gave up in a swap, and whether it was Parent before the row.
// The flag stands beside the column and not within its Option: `from_node` and `passes_solid` of specs/Links read it by itself.
#[derive(Clone, Copy)]
pub struct Swap {
    pub given_up: Option<usize>,
    pub was_direct: bool,
}

impl Drawn {
    // The kind of an entry that draws.
    pub fn by(ancestor: Ancestor) -> Drawn
        ensures { result ≡ drawn_by ancestor }
    {
        match ancestor {
            Ancestor::Ancestor(_) => Drawn::Indirect,
            Ancestor::Parent(_) => Drawn::Direct,
            Ancestor::Anonymous => Drawn::Anonymous,
        }
    }

    // Whether an entry draws.
    pub fn is_drawn(self) -> bool
        ensures { result ≡ is_drawn self }
    {
        !matches!(self, Drawn::Nobody)
    }

    // Whether an entry draws that counts as direct (`ancestor_is_direct` in graph_to_row_shape.rs).
    pub fn is_direct(self) -> bool
        ensures { result ≡ is_directly_drawn self }
    {
        matches!(self, Drawn::Direct | Drawn::Anonymous)
    }

    // Whether an indirect entry draws.
    pub fn is_indirect(self) -> bool
        ensures { result ≡ is_indirectly_drawn self }
    {
        matches!(self, Drawn::Indirect)
    }

    // Whether an Anonymous entry draws.
    pub fn is_anonymous(self) -> bool
        ensures { result ≡ is_anonymously_drawn self }
    {
        matches!(self, Drawn::Anonymous)
    }
}

// The swap is handed in beside the bounds, and the place with them: the definitions of specs/Links name each apart.
impl AncestorColumnBounds {
    // The bounds with one more column, in which an entry draws.
    fn reaching(self, index: usize, drawn: Drawn) -> AncestorColumnBounds
        ensures { result ≡ reaching_of self index drawn }
    {
        let target = self.target;
        let any = if drawn.is_drawn() { index } else { target };
        let direct = if drawn.is_direct() { index } else { target };
        AncestorColumnBounds {
            target,
            min_ancestor: self.min_ancestor.min(any),
            min_parent: self.min_parent.min(direct),
            max_parent: self.max_parent.max(direct),
            max_ancestor: self.max_ancestor.max(any),
        }
    }

    // The same, if an entry draws there; else they stay.
    fn with_column(self, index: usize, drawn: Drawn) -> AncestorColumnBounds
        ensures { result ≡ cond (is_drawn drawn) (reaching_of self index drawn) self }
    {
        if drawn.is_drawn() {
            return self.reaching(index, drawn);
        }
        self
    }

    // The bounds of the parents' columns, the first `width` ones, which are walked upward.
    // Array and width stay apart: the promise is of any width, and one above the limit is read as the limit.
    pub fn new(parents: [Drawn; COLUMN_LIMIT], width: usize, target: usize) -> AncestorColumnBounds
        ensures { result ≡ bounds_of (kinds width parents) target }
    {
        let n = column::live_count(width);
        let mut bounds = AncestorColumnBounds {
            target,
            min_ancestor: target,
            min_parent: target,
            max_parent: target,
            max_ancestor: target,
        };
        for (i, &drawn) in parents[..n].iter().enumerate() {
            bounds = bounds.with_column(i, drawn);
        }
        bounds
    }

    // The first column that the entries or the swap reach.
    pub fn reach_start(self, swap: Swap) -> usize
        ensures { result ≡ reach_start self swap }
    {
        let first = self.min_ancestor;
        swap.given_up.unwrap_or(first).min(first)
    }

    // The last column that they reach.
    fn reach_last(self, swap: Swap) -> usize
        ensures { result ≡ reach_last self swap }
    {
        let last = self.max_ancestor;
        swap.given_up.unwrap_or(last).max(last)
    }

    // Where the columns end that they reach, of the first `width` ones.
    pub fn reach_end(self, swap: Swap, width: usize) -> usize
        ensures { result ≡ min (reach_last self swap + 1) width }
    {
        self.reach_last(swap).saturating_add(1).min(width)
    }

    // Whether the row has a link line: an entry's column, or the one given up, is not the node's own.
    pub fn need_link_line(self, swap: Swap) -> bool
        ensures { result ≡ linked self swap }
    {
        swap.given_up.is_some()
            || self.min_ancestor < self.target
            || self.target < self.max_ancestor
    }
}

// The strokes that pass a cell, solid and dashed, and no other mark (`horizontal_line`): all that comes from the node where nothing of the
// row ends.
pub fn passing(bounds: AncestorColumnBounds, swap: Swap, index: usize) -> Marks
    ensures { result ≡ strokes (passes_solid bounds swap index) (passes_dashed bounds swap index) }
{
    let solid = swap.was_direct;
    let inner = (bounds.min_parent < index) & (index < bounds.max_parent);
    let outer = (bounds.min_ancestor < index) & (index < bounds.max_ancestor);
    let bar = (bounds.target < index) & swap.given_up.is_some_and(|place| index < place);
    Marks {
        horiz_parent: inner | (bar & solid),
        horiz_ancestor: (!inner & outer) | (bar & !solid),
        ..Marks::none()
    }
}

// The marks that come from the node in one cell (`link_line_from_node`).
pub fn from_node(bounds: AncestorColumnBounds, swap: Swap, index: usize, drawn: Drawn) -> Marks
    ensures { result ≡ from_node bounds swap index drawn }
{
    let target = bounds.target;
    let solid = swap.was_direct;
    let here = index == target;
    let stroke = passing(bounds, swap, index);
    let gone = swap.given_up == Some(index);
    let bend = here & swap.given_up.is_some();
    let direct = drawn.is_direct();
    let indirect = drawn.is_indirect();
    let left = bounds.min_parent < target;
    let right = target < bounds.max_parent;
    Marks {
        horiz_parent: !here & stroke.horiz_parent,
        horiz_ancestor: !here & stroke.horiz_ancestor,
        vert_parent: here & direct,
        vert_ancestor: here & indirect,
        left_fork_parent: (target < index) & direct,
        left_fork_ancestor: (target < index) & indirect,
        right_fork_parent: ((index < target) & direct) | (bend & solid),
        right_fork_ancestor: ((index < target) & indirect) | (bend & !solid),
        left_merge_parent: (here & left) | (gone & solid),
        left_merge_ancestor: (here & (!left & (bounds.min_ancestor < target))) | (gone & !solid),
        right_merge_parent: here & right,
        right_merge_ancestor: here & (!right & (target < bounds.max_ancestor)),
        child: here & drawn.is_drawn(),
    }
}

// Those marks with the lines that go straight on: the column's before the entries, but not where it was given up (`link_line`).
pub fn with_uprights(marks: Marks, gone: bool, column: Column) -> Marks
    ensures { result ≡ with_uprights gone column marks }
{
    Marks {
        vert_parent: (column.is_parent() & !gone) | marks.vert_parent,
        vert_ancestor: (column.is_ancestor() & !gone) | marks.vert_ancestor,
        ..marks
    }
}
