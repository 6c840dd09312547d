// What every layer needs of bytes: bytes written at the start of an output.
#![tactic(auto)]

ghost use Rattle.slices.specs.Joins.{Writes};

// Writes bytes at the start of an output, all of them where they fit and else none, and gives the count written.
pub fn write_bytes(out: &mut [u8], bytes: &[u8]) -> usize
    ensures { Writes bytes.now out.old out.new result }
{
    if out.len() < bytes.len() {
        return 0;
    }
    out[..bytes.len()].copy_from_slice(bytes);
    bytes.len()
}
