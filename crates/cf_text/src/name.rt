ghost use Rattle.std.specs.Prelude.{◌≡◌};
ghost use Rattle.std.specs.List.{list_all};
ghost use Rattle.cf_text.specs.Shapes.{begins_name, continues_name, is_name};

/// Each byte that a name may have is at its own place; every other place has a comma.
static NAME_BYTES: [u8; 256] = *b"\
    ,,,,,,,,,,,,,,,,,,,,,,,,,,,,,,,,\
    ,,,,,,,,,,,,,-,,0123456789,,,,,,\
    ,ABCDEFGHIJKLMNOPQRSTUVWXYZ,,,,_\
    ,abcdefghijklmnopqrstuvwxyz,,,,,\
    ,,,,,,,,,,,,,,,,,,,,,,,,,,,,,,,,\
    ,,,,,,,,,,,,,,,,,,,,,,,,,,,,,,,,\
    ,,,,,,,,,,,,,,,,,,,,,,,,,,,,,,,,\
    ,,,,,,,,,,,,,,,,,,,,,,,,,,,,,,,,";

#[inline(always)]
fn begins_name(byte: u8) -> bool
    ensures { result ≡ begins_name byte }
{
    byte.is_ascii_alphabetic() || byte == b'_'
}

#[inline(always)]
fn continues_name(byte: u8) -> bool
    ensures { result ≡ continues_name byte }
{
    NAME_BYTES[byte as usize] != b','
}

#[inline(always)]
fn all_continue(bytes: &[u8]) -> bool
    ensures { result ≡ list_all continues_name bytes.now }
{
    bytes.iter().all(|&byte| continues_name(byte))
}

/// Whether a chunk has the shape of a name: a letter or `_`, followed by letters, digits, `_` and `-`, of any length.
/// It takes no memory.
#[tactic(auto, using(crate::proofs::ShapeLemmas::is_name_parts))]
#[inline]
pub fn is_name(chunk: &[u8]) -> bool
    ensures { result ≡ is_name chunk.now }
{
    match chunk {
        [first, rest @ ..] => begins_name(*first) && all_continue(rest),
        [] => false,
    }
}
