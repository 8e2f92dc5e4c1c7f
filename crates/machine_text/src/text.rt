ghost use Rattle.std.specs.Prelude.{◌≡◌, ◌≤◌, ◌==◌, ◌||◌, length};
ghost use Rattle.std.specs.List.{list_all};
ghost use Rattle.config_rules.specs.MachineText.{bad_line, is_allowed};

use crate::line::has_bad_byte;

/// Whether a byte is allowed in a line, or ends one. Comparisons alone, so that a text is tested many bytes at a time.
#[inline(always)]
fn is_plain(byte: u8) -> bool
    ensures { result ≡ (byte == 10 || is_allowed byte) }
{
    byte == b'\n' || byte == b'\t' || (b' ' <= byte && byte <= b'~')
}

/// Whether each byte is plain, also in comments.
fn are_plain(text: &[u8]) -> bool
    ensures { result ≡ list_all (λ c. c == 10 || is_allowed c) text.now }
{
    let mut plain = true;
    for &byte in text {
        plain = plain & is_plain(byte);
    }
    plain
}

/// The first line that has a bad byte, found line by line.
fn first_bad_line(text: &[u8]) -> Option<u32>
    requires { length text.now ≤ 1048576 }
    ensures { result ≡ bad_line text.now }
{
    let mut number = 1;
    for line in text.split(|&byte| byte == b'\n') {
        if has_bad_byte(line) {
            return Some(number);
        }
        number += 1;
    }
    None
}

/// The number of the first line of a machine file of at most 1,048,576 bytes with a byte that is not allowed: outside
/// comments a tab, a newline and space to `~` are allowed. A comment goes from `#` to the end of its line.
pub fn bad_line(text: &[u8]) -> Option<u32>
    requires { length text.now ≤ 1048576 }
    ensures { result ≡ bad_line text.now }
{
    if are_plain(text) {
        return None;
    }
    first_bad_line(text)
}
