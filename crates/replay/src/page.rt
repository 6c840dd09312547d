// The page: the output that a renderer call or a text call writes to. It is lent to every command, and filled anew before each call.

// The page's length.
pub(crate) const ROOM: usize = 300000;

// The first bytes of the page, at most all, filled with those that an output has before a call: the 61 from A0 to DC, and again.
pub(crate) fn fresh(page: &mut [u8], length: usize) -> &mut [u8] {
    let length = length.min(page.len());
    let output = &mut page[..length];
    for piece in output.chunks_mut(61) {
        for (byte, given) in piece.iter_mut().zip(0xa0..=0xdc) {
            *byte = given;
        }
    }
    output
}

// The first bytes of the page, at most all.
pub(crate) fn written(page: &[u8], length: usize) -> &[u8] {
    &page[..length.min(page.len())]
}
