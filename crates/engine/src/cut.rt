// Where the input of `linerun` is cut: its first text ends with the first line whose characters begin `04`, or is all.
// Not here: what is written for both texts (show).
ghost use Rattle.std.specs.Prelude.{◌≡◌, true, ◌+◌, ◌≤◌, length, drop};
ghost use Rattle.cofj.specs.Show.{begins04, line_length, first_length};

// Whether the characters from a place on begin `04`.
fn begins(text: &[u8], at: usize) -> bool
    requires { at ≤ length text.now }
    ensures { result ≡ begins04 (drop at text.now) }
{
    text[at..].starts_with(b"04")
}

// The place after the LF of the line that goes on at a place, or the end of the text.
fn line_end(text: &[u8], at: usize) -> usize
    requires { at ≤ length text.now }
    ensures { result ≡ at + line_length (drop at text.now) }
{
    for i in at..text.len() {
        if text[i] == b'\n' {
            return i + 1;
        }
    }
    text.len()
}

// How many characters the first text has.
pub(crate) fn first_length(text: &[u8]) -> usize
    ensures { result ≡ first_length true text.now }
{
    let mut at: usize = 0;
    // by what each line takes: no range
    while at < text.len() {
        let end = line_end(text, at);
        if begins(text, at) {
            return end;
        }
        at = end;
    }
    at
}
