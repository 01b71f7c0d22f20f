//! Parts of a line by the characters that they are made of.
ghost use Rattle.std.specs.Prelude.{◌≡◌, ◌≤◌, ℕ, Bool, length};
ghost use Rattle.std.specs.List.{prefix_len};
ghost use Rattle.script.specs.Parts.{is_blank, Tests, trimmed_of, content_of};

// A carriage return counts as blank: it ends each line of a file from some systems.
pub(crate) fn blank(character: u8) -> bool
    ensures { result ≡ is_blank character }
{
    matches!(character, b' ' | b'\t' | b'\r')
}

/// How many characters pass a test at the front of a text.
pub(crate) fn front<F: Fn(u8) -> bool>(text: &[u8], passes: F) -> usize
    requires { F.IsAlwaysCallable passes }
    ensures value { (p : ℕ → Bool) → Tests (F.post passes) p → result ≡ prefix_len p text.now }
    ensures bound { result ≤ length text.now }
{
    text.iter()
        .take_while(|character| passes(**character))
        .count()
}

/// A text without the blanks at its end.
pub(crate) fn trimmed(text: &[u8]) -> &[u8]
    ensures { result.now ≡ trimmed_of text.now }
{
    let blanks = text
        .iter()
        .rev()
        .take_while(|character| blank(**character))
        .count();
    &text[..text.len() - blanks]
}

/// What a line says: all before a comment, without the blanks at its end.
pub(crate) fn content(line: &[u8]) -> &[u8]
    ensures { result.now ≡ content_of line.now }
{
    trimmed(&line[..front(line, |character| character != b'#')])
}
