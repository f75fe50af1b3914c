// One line with a place in it. Each method takes it apart and calls a function that has the slice and the place as parameters.
// Not here: the work itself, which is done by functions of a slice and a place (here and in exprs).
ghost use Rattle.std.specs.Prelude.{◌≡◌, drop};
ghost use Rattle.cofj.specs.Limits.{nesting_limit};
ghost use Rattle.cofj.specs.Frames.{expr};
ghost use Rattle.lineform.specs.Answers.{end_of};
ghost use Rattle.lineform.specs.Places.{byte_of, reader_at};

use crate::exprs::{NESTING_LIMIT, read_expr, sign_at};

#[derive(Clone, Copy)]
pub(crate) struct LineReader<'a> {
    pub line: &'a [u8],
    pub at: usize,
}

// ---- slice and place

pub(crate) fn byte_of(s: &[u8], at: usize) -> Option<u8>
    ensures { result ≡ byte_of (drop at s.now) }
{
    s.get(at).copied()
}

pub(crate) fn expr_end(s: &[u8], at: usize) -> Option<usize>
    ensures { result ≡ end_of s.now (expr nesting_limit (drop at s.now)) }
{
    let g = sign_at(s, at)?;
    read_expr(s, g.next, g.parts, NESTING_LIMIT)
}

// ---- the reader

impl<'a> LineReader<'a> {
    pub(crate) fn start(line: &'a [u8]) -> LineReader<'a>
        ensures { result ≡ reader_at line.entry 0 }
    {
        LineReader { line, at: 0 }
    }

    pub(crate) fn byte(self) -> Option<u8>
        ensures { result ≡ byte_of (drop self.entry.at self.entry.line.now) }
    {
        byte_of(self.line, self.at)
    }

    pub(crate) fn moved(self, at: usize) -> LineReader<'a>
        ensures { result ≡ reader_at self.entry.line at }
    {
        LineReader {
            line: self.line,
            at,
        }
    }

    // Where the expression at the cursor ends.
    pub(crate) fn past_expr(self) -> Option<usize>
        ensures { result ≡ end_of self.entry.line.now (expr nesting_limit (drop self.entry.at self.entry.line.now)) }
    {
        expr_end(self.line, self.at)
    }
}

// ---- for callers: plain parameters

// The byte that says a line's kind.
pub(crate) fn first_byte(s: &[u8]) -> Option<u8>
    ensures { result ≡ byte_of s.now }
{
    LineReader::start(s).byte()
}

// Where the expression at a place of a line ends.
pub(crate) fn expr_at(s: &[u8], at: usize) -> Option<usize>
    ensures { result ≡ end_of s.now (expr nesting_limit (drop at s.now)) }
{
    LineReader::start(s).moved(at).past_expr()
}
