// The frame in a line of text.
ghost use Rattle.std.specs.Prelude.{◌≡◌};
ghost use Rattle.text.specs.Lines.{frame_in};

// The frame that a line holds: all of it but the byte that ends it.
pub fn frame_in(line: &[u8]) -> &[u8]
    ensures { result.now ≡ frame_in line.now }
{
    line.strip_suffix(b"\n").unwrap_or(line)
}
