// What the codes of a payload stand for. The types are other crates', so a kind by number is a function and no `impl From<u8>`.
use crate::payload::Payload;
use column::{COLUMN_LIMIT, Column, Slot};
use glyphs::Renderer;
use lent::LIST_LIMIT;
use output::{QUEUE_LIMIT, TextState};
use render::{
    Ancestor, Cell, DashStyle, Entry, LinkLine, LinkLinePlacement, NodeLine, Options, PadLine,
    RowShape, Style,
};
use shaper::Shaper;

// The bytes of a slot: its kind and its id.
const SLOT: usize = 5;

// The bytes of an entry: its kind and its id.
const ENTRY: usize = 5;

// The entries that a call is made with: the first of a list. It stays an array and a count, since the calls of `lent` take these.
#[derive(Clone, Copy)]
pub(crate) struct EntryList {
    pub(crate) entries: [Entry; LIST_LIMIT],
    pub(crate) count: usize,
}

impl EntryList {
    // A list without entries.
    pub(crate) fn none() -> EntryList {
        let entry = Entry {
            ancestor: Ancestor::Anonymous,
        };
        EntryList {
            entries: [entry; LIST_LIMIT],
            count: 0,
        }
    }
}

// The dash style with this code.
fn dash_style(code: u8) -> DashStyle {
    match code {
        0 => DashStyle::Persistent,
        _ => DashStyle::Once,
    }
}

// The link placement with this code.
fn link_line_placement(code: u8) -> LinkLinePlacement {
    match code {
        0 => LinkLinePlacement::Top,
        _ => LinkLinePlacement::Bottom,
    }
}

// The column with this kind and id; a kind above 4 is Empty.
fn column(kind: u8, id: u32) -> Column {
    match kind {
        1 => Column::Blocked,
        2 => Column::Reserved(id),
        3 => Column::Ancestor(id),
        4 => Column::Parent(id),
        _ => Column::Empty,
    }
}

// The parent entry with this kind and id; a kind above 2 is Anonymous.
fn ancestor(kind: u8, id: u32) -> Ancestor {
    match kind {
        1 => Ancestor::Ancestor(id),
        2 => Ancestor::Parent(id),
        _ => Ancestor::Anonymous,
    }
}

// The renderer with this code; one above 4 is DEC. `whole_history` has its own: the codes of two formats, which no crate below knows.
fn renderer(code: u8) -> Renderer {
    match code {
        0 => Renderer::Ascii,
        1 => Renderer::AsciiLarge,
        2 => Renderer::Square,
        3 => Renderer::Curved,
        _ => Renderer::Dec,
    }
}

// The node line's cell with this code; one above 3 is blank.
fn node_line(code: u8) -> NodeLine {
    match code {
        1 => NodeLine::Ancestor,
        2 => NodeLine::Parent,
        3 => NodeLine::Node,
        _ => NodeLine::Blank,
    }
}

// The ancestry line's cell with this code; one above 2 is blank.
fn pad_line(code: u8) -> PadLine {
    match code {
        1 => PadLine::Ancestor,
        2 => PadLine::Parent,
        _ => PadLine::Blank,
    }
}

impl Payload<'_> {
    // Dash, placement.
    pub(crate) fn style(&mut self) -> Style {
        let dash_style = dash_style(self.u8());
        let link_line_placement = link_line_placement(self.u8());
        Style {
            dash_style,
            link_line_placement,
        }
    }

    // Height, stagger, style.
    pub(crate) fn options(&mut self) -> Options {
        let min_row_height = self.size();
        let stagger_consecutive_disconnected_nodes = self.flag();
        let graph_row_shape_style = self.style();
        Options {
            min_row_height,
            stagger_consecutive_disconnected_nodes,
            graph_row_shape_style,
        }
    }

    // A column's place, if there is one: flag, number.
    fn place(&mut self) -> Option<usize> {
        let is_given = self.flag();
        let index = self.size();
        is_given.then_some(index)
    }

    // A node, if there is one: flag, id; beside `place`, each of two reads.
    pub(crate) fn node(&mut self) -> Option<u32> {
        let is_given = self.flag();
        let node = self.u32();
        is_given.then_some(node)
    }

    // Kind, id.
    fn column(&mut self) -> Column {
        let kind = self.u8();
        column(kind, self.u32())
    }

    // How many slots are given, then those, then the origin of each. Slots not given are Empty, those past the array's end are passed over.
    fn slots(&mut self) -> [Slot; COLUMN_LIMIT] {
        let given = usize::from(self.u8());
        let mut columns = self.part(SLOT * given);
        let mut slots = [Slot::empty(); COLUMN_LIMIT];
        for slot in slots.iter_mut().take(given) {
            *slot = Slot {
                column: columns.column(),
                origin: self.u32(),
            };
        }
        slots
    }

    // Count, previous, options, slots.
    pub(crate) fn shaper(&mut self) -> Shaper {
        let count = self.size();
        let previous_node_column = self.place();
        let options = self.options();
        let slots = self.slots();
        Shaper {
            slots,
            count,
            previous_node_column,
            options,
        }
    }

    // Kind, id.
    fn entry(&mut self) -> Entry {
        let kind = self.u8();
        let ancestor = ancestor(kind, self.u32());
        Entry { ancestor }
    }

    // How many entries are given, then those, into a list that is lent: one that is given back would have its room cleared a second time.
    // Those past the list's end are passed over; what the list has behind the given ones stays.
    pub(crate) fn read_entries(&mut self, list: &mut EntryList) {
        let count = usize::from(self.u16());
        let mut given = self.part(ENTRY * count);
        list.count = count;
        for entry in list.entries.iter_mut().take(count) {
            *entry = given.entry();
        }
    }

    // Entries, if there are any: flag, entries. Where there are none, the list stays as it is.
    pub(crate) fn read_optional_entries(&mut self, list: &mut EntryList) {
        if self.flag() {
            self.read_entries(list);
        }
    }

    pub(crate) fn renderer(&mut self) -> Renderer {
        renderer(self.u8())
    }

    // A queued line: how many bytes are given, then those. Bytes not given are 0.
    fn queue(&mut self) -> [u8; QUEUE_LIMIT] {
        let given = usize::from(self.u16());
        let mut queue = [0; QUEUE_LIMIT];
        for (byte, given) in queue.iter_mut().zip(self.take(given)) {
            *byte = *given;
        }
        queue
    }

    // Queued, queued length, row height, queued line.
    pub(crate) fn text_state(&mut self) -> TextState {
        let is_queued = self.flag();
        let queued_length = self.size();
        let row_height = self.size();
        let queued_pad_line = self.queue();
        TextState {
            queued_pad_line,
            queued_length,
            is_queued,
            row_height,
        }
    }

    fn link_line(&mut self) -> LinkLine {
        let bits = self.u16();
        LinkLine { bits }
    }

    // Node, link, link from node, term, ancestry, parent.
    fn cell(&mut self) -> Cell {
        let node = node_line(self.u8());
        let link = self.link_line();
        let link_from_node = self.link_line();
        let term = self.flag();
        let ancestry = pad_line(self.u8());
        let parent = self.flag();
        Cell {
            link,
            link_from_node,
            node,
            term,
            ancestry,
            parent,
        }
    }

    // How many cells are given, then those. Cells not given are blank.
    fn cells(&mut self) -> [Cell; COLUMN_LIMIT] {
        let given = usize::from(self.u8());
        let mut cells = [Cell::blank(); COLUMN_LIMIT];
        for cell in cells.iter_mut().take(given) {
            *cell = self.cell();
        }
        cells
    }

    // Node, merge, separator, style, head, root, node column, width, whether it has a link line and a term line, cells.
    pub(crate) fn shape(&mut self) -> RowShape {
        let node = self.u32();
        let merge = self.flag();
        let separator_line = self.flag();
        let style = self.style();
        let is_head = self.flag();
        let is_root = self.flag();
        let node_column = self.size();
        let width = self.size();
        let link_line = self.flag();
        let term_line = self.flag();
        let cells = self.cells();
        RowShape {
            node,
            merge,
            separator_line,
            style,
            is_head,
            is_root,
            node_column,
            width,
            link_line,
            term_line,
            cells,
        }
    }
}
