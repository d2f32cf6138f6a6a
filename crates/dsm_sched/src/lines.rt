//! The lines of a text.

ghost use Rattle.std.specs.Prelude.{◌≡◌, ◌<◌, ◌≤◌, ◌∷◌, length};
ghost use Rattle.std.specs.List.{prefix_len};
ghost use Rattle.std.specs.Str.Lines.{lines, strip_carriage_return};
ghost use Rattle.dsm_sched.specs.Words.{not_newline};

/// How many bytes stand before the first newline.
fn line_len(text: &[u8]) -> usize
    ensures len { result ≡ prefix_len not_newline text.now }
    ensures within { result ≤ length text.now }
{
    text.iter().take_while(|byte| **byte != b'\n').count()
}

/// A line without the carriage return before its newline.
fn without_return(line: &[u8]) -> &[u8]
    ensures { result.now ≡ strip_carriage_return line.now }
{
    match line.last() {
        Some(b'\r') => &line[..line.len() - 1],
        _ => line,
    }
}

/// The first line of a text that isn't empty, and what stands behind it.
pub(crate) fn split_line(text: &[u8]) -> (&[u8], &[u8])
    requires { 0 < length text.now }
    ensures lines { lines text.now ≡ result.0.now ∷ lines result.1.now }
    ensures shorter { length result.1.now < length text.now }
{
    let end = line_len(text);
    if end == text.len() {
        (text, &text[end..])
    } else {
        (without_return(&text[..end]), &text[end + 1..])
    }
}
