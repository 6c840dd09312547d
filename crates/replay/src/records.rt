// The line that answers a record call.
use crate::answers::write_bytes;
use crate::words::Named;
use lineage::Record;
use render::{Entries, Refusal};
use std::fmt::{Display, Formatter};
use std::io::Write;
use std::{fmt, io};

// The entries of a record.
#[derive(Clone, Copy)]
struct Parents<'a>(&'a Entries);

impl Display for Parents<'_> {
    fn fmt<W: fmt::Write>(&self, f: &mut Formatter<W>) -> fmt::Result {
        let entries = self.0;
        let list = entries.list.iter().take(entries.count);
        f.write_joined(list.map(|entry| Named(*entry)), ",")
    }
}

// `id=ID mark=MARK entries=ENTRIES message=COUNT:BYTES`
fn write_fields<W: Write>(out: &mut W, record: &Record) -> io::Result<()> {
    write!(out, "id={} mark={}", record.id, record.mark)?;
    write!(out, " entries={} message=", Parents(&record.entries))?;
    let length = record.message_length.min(record.message.len());
    write_bytes(out, &record.message[..length])?;
    writeln!(out)
}

// `record OUTCOME id=ID mark=MARK entries=ENTRIES message=COUNT:BYTES`
pub(crate) fn write_record<W: Write>(
    out: &mut W,
    given: &Result<Option<Record>, Refusal>,
) -> io::Result<()> {
    match given {
        Ok(Some(record)) => {
            write!(out, "record ready ")?;
            write_fields(out, record)
        }
        Ok(None) => {
            write!(out, "record ended ")?;
            write_fields(out, &Record::none())
        }
        Err(refusal) => {
            write!(out, "record refused {} ", refusal.number())?;
            write_fields(out, &Record::none())
        }
    }
}
