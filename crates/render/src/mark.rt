// The mark of a node.
ghost use Rattle.std.specs.Prelude.{◌≡◌};
ghost use Rattle.render.specs.Mark.{is_mark};

// Whether a byte can be a mark: 21 to 7E.
pub fn is_mark(byte: u8) -> bool
    ensures { result ≡ is_mark byte }
{
    matches!(byte, 0x21..=0x7e)
}
