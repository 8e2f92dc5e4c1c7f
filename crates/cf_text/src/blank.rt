ghost use Rattle.std.specs.Prelude.{◌≡◌};
ghost use Rattle.cf_text.specs.Shapes.{is_space};

/// Whether a byte is a space or a tab, which separate the words of a line.
#[inline(always)]
pub fn is_space(byte: u8) -> bool
    ensures { result ≡ is_space byte }
{
    byte == b' ' || byte == b'\t'
}
