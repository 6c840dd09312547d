// Records of 128 bytes (document 01, "Added by us"), and the record call.
#![tactic(auto)]

ghost use Rattle.std.specs.Prelude.{◌≡◌, map, min, ◌+◌, ◌<◌, ◌≤◌, length, take};
ghost use Rattle.render.specs.Entries.{entry_limit};
ghost use Rattle.record.specs.Record.{record_length, parent_count, kind_limit, message_room, id_at, mark_of, entry_of, written_at, written_from, any_above, up_to_zero, record_of, no_record};
ghost use Rattle.record.specs.Promises.{entry, entries_with, padded, record_with, record_answer_from, Records};

use render::{Ancestor, ENTRY_LIMIT, Entries, Entry, Refusal};

// The bytes of a record.
pub const RECORD: usize = 128;

// The highest kind of an entry: a byte of the record, and no refusal's number.
const KIND_LIMIT: u8 = 2;

// Where the mark, the parent count, the entries and the message stand in a record.
const MARK_AT: usize = 4;

const COUNT_AT: usize = 5;

const ENTRIES_AT: usize = 6;

const MESSAGE_AT: usize = 46;

// The bytes of an entry: its kind and its id.
const ENTRY: usize = 5;

// The bytes that a message has room in.
pub const MESSAGE_ROOM: usize = 82;

// A record, decoded. The message is the first bytes of its array: fixed memory, no heap.
#[derive(Clone, Copy)]
pub struct Record {
    pub id: u32,
    pub mark: u8,
    pub entries: Entries,
    pub message: [u8; MESSAGE_ROOM],
    pub message_length: usize,
}

impl Record {
    // What a refused record comes back as, and what stands where there is none: id 0, mark 0, no entries and no message.
    pub fn none() -> Record
        ensures { result ≡ record_with no_record }
    {
        Record {
            id: 0,
            mark: 0,
            entries: Entries::none(),
            message: [0; MESSAGE_ROOM],
            message_length: 0,
        }
    }
}

// The id at a place, low byte first.
fn id_at(bytes: &[u8; RECORD], at: usize) -> u32
    requires { at + 4 ≤ record_length }
    ensures { result ≡ id_at bytes.now at }
{
    u32::from_le_bytes([bytes[at], bytes[at + 1], bytes[at + 2], bytes[at + 3]])
}

// The id of a record.
pub fn id_of(bytes: &[u8; RECORD]) -> u32
    ensures { result ≡ id_at bytes.now 0 }
{
    id_at(bytes, 0)
}

// The mark of a record.
pub fn mark_of(bytes: &[u8; RECORD]) -> u8
    ensures { result ≡ mark_of bytes.now }
{
    bytes[MARK_AT]
}

// How many parents a record says that it has.
fn parent_count(bytes: &[u8; RECORD]) -> usize
    ensures { result ≡ parent_count bytes.now }
{
    usize::from(bytes[COUNT_AT])
}

// The entry with this number; a kind above the highest is read as a parent's.
fn entry_at(bytes: &[u8; RECORD], number: usize) -> Entry
    requires { number < entry_limit }
    ensures { result ≡ entry (entry_of (written_at bytes.now number)) }
{
    let at = ENTRIES_AT + ENTRY * number;
    let id = id_at(bytes, at + 1);
    let ancestor = match bytes[at] {
        0 => Ancestor::Anonymous,
        1 => Ancestor::Ancestor(id),
        _ => Ancestor::Parent(id),
    };
    Entry { ancestor }
}

// The entries of a record, as many as it has parents, and no more than there is room for: read by their numbers, as no slice holds them.
pub fn entries_of(bytes: &[u8; RECORD]) -> Entries
    ensures { result ≡ entries_with (map entry_of (written_from bytes.now 0 (min (parent_count bytes.now) entry_limit))) }
{
    let mut entries = Entries::none();
    for i in 0..parent_count(bytes).min(ENTRY_LIMIT) {
        entries = entries.push(entry_at(bytes, i));
    }
    entries
}

// Whether one of the first entries has a kind above the highest.
fn has_other_kind(bytes: &[u8; RECORD], parents: usize) -> bool
    requires { parents ≤ entry_limit }
    ensures { result ≡ any_above kind_limit (written_from bytes.now 0 parents) }
{
    (0..parents).any(|i| KIND_LIMIT < bytes[ENTRIES_AT + ENTRY * i])
}

// The length of a message, which ends before the first zero byte.
fn message_length(room: &[u8]) -> usize
    ensures { (result ≡ length (up_to_zero room.now)) × (take result room.now ≡ up_to_zero room.now) }
{
    room.iter().position(|b| *b == 0).unwrap_or(room.len())
}

// A message, and zeros behind it.
fn message_of(message: &[u8]) -> [u8; MESSAGE_ROOM]
    requires { length message.now ≤ message_room }
    ensures { result ≡ padded message.now }
{
    let mut room = [0u8; MESSAGE_ROOM];
    room[..message.len()].copy_from_slice(message);
    room
}

// The record that the bytes hold.
fn record_of(bytes: &[u8; RECORD]) -> Record
    requires { parent_count bytes.now ≤ entry_limit }
    ensures { result ≡ record_with (record_of bytes.now) }
{
    let room = &bytes[MESSAGE_AT..];
    let message_length = message_length(room);
    Record {
        id: id_of(bytes),
        mark: mark_of(bytes),
        entries: entries_of(bytes),
        message: message_of(&room[..message_length]),
        message_length,
    }
}

// The next record of the bytes that are left, unless a check refuses it, or none where no bytes are left.
pub fn next_record(left: &[u8]) -> Result<Option<Record>, Refusal>
    ensures { Records left.now (record_answer_from result) }
{
    if left.is_empty() {
        return Ok(None);
    }
    let Some(bytes) = left.first_chunk::<RECORD>() else {
        return Err(Refusal::RecordCutShort);
    };
    let parents = parent_count(bytes);
    if ENTRY_LIMIT < parents {
        return Err(Refusal::TooManyParents);
    }
    if has_other_kind(bytes, parents) {
        return Err(Refusal::KindAboveLimit);
    }
    Ok(Some(record_of(bytes)))
}
