// The refusals with their numbers: the table of document 01, "Where a call turns back", then the checks of the requests in document 02.
ghost use Rattle.std.specs.Prelude.{◌≡◌};
ghost use Rattle.render.specs.Refusals.{number as number_of};

// Why a call turns back.
#[derive(Clone, Copy)]
pub enum Refusal {
    // New shaper: minimum row height above 16.
    HeightAboveLimit = 1,
    // Reserving: id not held, no Empty column, 64 columns.
    NoColumnLeft = 2,
    // Row, preview, width, text: more than 8 entries (R-5).
    TooManyEntries = 3,
    // Row, preview, text: node line would have more than 64 cells.
    NodeLineTooWide = 4,
    // Renderer, text: mark outside 21 to 7E.
    MarkOutsideSpan = 5,
    // Text: message above 512 bytes.
    MessageTooLong = 6,
    // Text: message byte not 0A or 20 to 7E.
    MessageByteNotWritable = 7,
    // Renderer, text: output shorter than the lines need.
    OutputShorterThanLines = 8,
    // Record: fewer than 128 bytes left, but not none.
    RecordCutShort = 9,
    // Record: parent count above 8.
    TooManyParents = 10,
    // Record: kind above 2 in a used entry.
    KindAboveLimit = 11,
    // Renderer: shape wider than 64 cells.
    ShapeTooWide = 12,
    // R-6, record: the id isn't below the previous record's.
    IdNotBelowPrevious = 13,
    // R-6, record: a used named entry isn't below its own record's id.
    ParentNotBelowId = 14,
    // R-7: one id with unequal bytes.
    UnequalRecords = 15,
    // R-7, R-11, R-12, R-13: output, storage or text buffer too short for the result.
    OutputShorterThanResult = 16,
    // R-8: a width outside the span.
    WidthOutsideSpan = 17,
    // R-8: fewer than ten cells are left, or a queued line to be written has more cells than the width.
    TooFewCellsLeft = 18,
    // R-10: a glyph's byte outside 20 to 7E.
    GlyphByteNotPrintable = 19,
    // R-11: above 256 records.
    TooManyRecords = 20,
    // R-11: a new list exceeds eight.
    TooManyReached = 21,
    // R-12: not the number of a whole record before the change.
    NoSuchRecord = 22,
    // R-13: a byte that is neither printable, 0A nor part of a whole shift sequence.
    ByteNotReadable = 23,
    // R-13: any other printable byte, or a line end, while shifted.
    ByteNotAGlyph = 24,
}

impl Refusal {
    // The refusal's number.
    pub fn number(self) -> u8
        ensures { result ≡ number_of self }
    {
        self as u8
    }
}
