//! Lines of texts, and what a line of a bag's description says.
ghost use Rattle.std.specs.Prelude.{◌≡◌, ◌∷◌, ◌==◌, ◌<◌, MatchOption, None, Some, codes, length, position};
ghost use Rattle.hfs_put_sources.specs.Lines.{behind_label, first_value, lines};

/// The label of the line with the name of the disk's root.
const EXTERNAL_IDENTIFIER: [u8; 21] = *b"External-Identifier: ";

/// The place of the first line feed.
fn line_feed(text: &[u8]) -> Option<usize>
    ensures { result ≡ position (λ c. c == 10) text.now }
{
    text.iter().position(|byte| *byte == b'\n')
}

/// The first nonempty line of a text, and what follows its line feed.
pub fn next_line(text: &[u8]) -> (&[u8], &[u8])
    requires { 0 < length text.now }
    ensures lines { lines text.now ≡ result.0.now ∷ lines result.1.now }
    ensures shorter { length result.1.now < length text.now }
{
    match line_feed(text) {
        Some(end) => (&text[..end], &text[end + 1..]),
        None => (text, &[]),
    }
}

/// What follows this label, if a line begins with it.
fn behind_label<'a>(label: &[u8], line: &'a [u8]) -> Option<&'a [u8]>
    ensures { MatchOption result (behind_label label.now line.now ≡ None)
        (λ found. behind_label label.now line.now ≡ Some found.now) }
{
    line.strip_prefix(label)
}

/// The plain text of the name of the disk's root, from the first line of a bag's description that has it. See
/// [`crate::info_read_back`], and `plain_item_name` of `hfs_encodings` for the name.
pub fn external_identifier(info: &[u8]) -> Option<&[u8]>
    ensures { MatchOption result
        (first_value (codes "External-Identifier: ") (lines info.now) ≡ None)
        (λ found. first_value (codes "External-Identifier: ") (lines info.now) ≡ Some found.now) }
{
    let mut rest = info;
    while !rest.is_empty() {
        let (line, behind) = next_line(rest);
        if let Some(found) = behind_label(&EXTERNAL_IDENTIFIER, line) {
            return Some(found);
        }
        rest = behind;
    }
    None
}
