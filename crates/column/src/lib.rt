// The columns of the graph, after column.rs: what a column is, merging, the lookups and reset.
// They are held as an array of slots and a count; a count above the limit is read as the limit.
#![tactic(auto)]

ghost use Rattle.std.specs.Prelude.{◌≡◌, ◌+◌, min, max, set};
ghost use Rattle.std.specs.List.{position};
ghost use Rattle.column.specs.Columns.{column_limit, rank as rank_of, holds, is_empty, is_reserved, is_ancestor, is_parent, is_named, column_at, merge as merged, first, find as find_in, vacant as vacant_in, direct, unblock as unblocked, live, empty_slot, slot_of, origin_or, started_by};

// The most columns that are held.
pub const COLUMN_LIMIT: usize = 64;

// A column of the graph; the last three hold an id.
#[derive(Clone, Copy)]
pub enum Column {
    Empty,
    Blocked,
    Reserved(u32),
    Ancestor(u32),
    Parent(u32),
}

// What the array of columns holds for each column: the column, and the node whose row first named its id, which counts in an Ancestor or
// Parent column only.
#[derive(Clone, Copy)]
pub struct Slot {
    pub column: Column,
    pub origin: u32,
}

// Who started an id's line: the id does not wait, it was only reserved, or the node whose row first named it. Three answers, each by name: an Option
// of an Option would name none of them.
#[derive(Clone, Copy)]
pub enum Started {
    NotWaiting,
    Unnamed,
    By(u32),
}

impl Column {
    // Whether the column holds the id.
    pub fn matches(self, node: u32) -> bool
        ensures { result ≡ holds node self }
    {
        match self {
            Column::Empty | Column::Blocked => false,
            Column::Reserved(id) | Column::Ancestor(id) | Column::Parent(id) => node == id,
        }
    }

    // Whether the column is Empty.
    pub fn is_empty(self) -> bool
        ensures { result ≡ is_empty self }
    {
        matches!(self, Column::Empty)
    }

    // Whether the column is Reserved.
    pub fn is_reserved(self) -> bool
        ensures { result ≡ is_reserved self }
    {
        matches!(self, Column::Reserved(_))
    }

    // Whether the column is Ancestor.
    pub fn is_ancestor(self) -> bool
        ensures { result ≡ is_ancestor self }
    {
        matches!(self, Column::Ancestor(_))
    }

    // Whether the column is Parent.
    pub fn is_parent(self) -> bool
        ensures { result ≡ is_parent self }
    {
        matches!(self, Column::Parent(_))
    }

    // Whether the column's id was named by a row.
    pub fn is_named(self) -> bool
        ensures { result ≡ is_named self }
    {
        matches!(self, Column::Ancestor(_) | Column::Parent(_))
    }

    // The column's rank, from 0 to 4 (`variant` in column.rs).
    pub fn rank(self) -> u8
        ensures { result ≡ rank_of self }
    {
        match self {
            Column::Empty => 0,
            Column::Blocked => 1,
            Column::Reserved(_) => 2,
            Column::Ancestor(_) => 3,
            Column::Parent(_) => 4,
        }
    }

    // The column after `other` is merged into it: only a higher rank replaces it.
    pub fn merge(self, other: Column) -> Column
        ensures { result ≡ merged self other }
    {
        if self.rank() < other.rank() {
            other
        } else {
            self
        }
    }

    // Blocked becomes Empty; any other column stays.
    pub fn reset(self) -> Column
        ensures { result ≡ unblocked self }
    {
        match self {
            Column::Blocked => Column::Empty,
            _ => self,
        }
    }

    // Ancestor becomes Parent; any other column stays.
    pub fn convert_ancestor_to_parent(self) -> Column
        ensures { result ≡ direct self }
    {
        match self {
            Column::Ancestor(node) => Column::Parent(node),
            _ => self,
        }
    }
}

impl Slot {
    // A slot that holds nothing.
    pub fn empty() -> Slot
        ensures { result ≡ empty_slot }
    {
        Slot::new(Column::Empty, 0)
    }

    // A slot with this column and origin; an origin that does not count is 0.
    pub fn new(column: Column, origin: u32) -> Slot
        ensures { result ≡ slot_of column origin }
    {
        if column.is_named() {
            return Slot { column, origin };
        }
        Slot { column, origin: 0 }
    }

    // The node that first named the id of this slot, where `old` stands in it; without one it is `node`.
    pub fn origin_or(self, old: Column, node: u32) -> u32
        ensures { result ≡ origin_or self old node }
    {
        if old.is_named() {
            return self.origin;
        }
        node
    }

    // Who started the line of the slot's id.
    pub fn started(self) -> Started
        ensures { result ≡ started_by self.column self.origin }
    {
        match self.column {
            Column::Empty | Column::Blocked => Started::NotWaiting,
            Column::Reserved(_) => Started::Unnamed,
            Column::Ancestor(_) | Column::Parent(_) => Started::By(self.origin),
        }
    }

    // The slot's column where the slot at `index` is live, else Empty.
    pub fn column_at(self, index: usize, count: usize) -> Column
        ensures { result ≡ column_at self index count }
    {
        if index < count {
            return self.column;
        }
        Column::Empty
    }
}

// The number of live columns.
pub fn live_count(count: usize) -> usize
    ensures { result ≡ min count column_limit }
{
    count.min(COLUMN_LIMIT)
}

// The first of the slots whose column holds the id.
fn first_holding(live: &[Slot], node: u32) -> Option<usize>
    ensures { result ≡ position (λ (s : _). holds node s.column) live.now }
{
    live.iter().position(|slot| slot.column.matches(node))
}

// The first of the slots whose column is Empty.
fn first_free(live: &[Slot]) -> Option<usize>
    ensures { result ≡ position (λ (s : _). is_empty s.column) live.now }
{
    live.iter().position(|slot| slot.column.is_empty())
}

// Here and below the slots and their count go by value, as the shaper does through the core, and each promise is of any count.

// The first column that holds the id.
pub fn find(slots: [Slot; COLUMN_LIMIT], count: usize, node: u32) -> Option<usize>
    ensures { result ≡ find_in node (live count slots) }
{
    first_holding(&slots[..live_count(count)], node)
}

// The first Empty column.
pub fn first_empty(slots: [Slot; COLUMN_LIMIT], count: usize) -> Option<usize>
    ensures { result ≡ first is_empty (live count slots) }
{
    first_free(&slots[..live_count(count)])
}

// The first Empty column but column `skip`. The loop goes over places, since the place itself is compared.
pub fn first_other_empty(slots: [Slot; COLUMN_LIMIT], count: usize, skip: usize) -> Option<usize>
    ensures { result ≡ first is_empty (set (live count slots) skip Column.Blocked) }
{
    for place in 0..live_count(count) {
        let column = slots[place].column;
        if column.is_empty() & (place != skip) {
            return Some(place);
        }
    }
    None
}

// The first Empty column, else the index of a new last one: the limit itself where there is no room for one.
pub fn vacant(slots: [Slot; COLUMN_LIMIT], count: usize) -> usize
    ensures { result ≡ vacant_in (live count slots) }
{
    let Some(index) = first_empty(slots, count) else {
        return live_count(count);
    };
    index
}

// The number of columns once there is one at `index`: none past the limit.
pub fn count_with(count: usize, index: usize) -> usize
    ensures { result ≡ min (max count (index + 1)) column_limit }
{
    live_count(count.max(index.saturating_add(1)))
}
