// The line reader (document 01, 'The ticket'): the ticket bytes, lent, and the start of the next line.
// The work is left to a cursor at that place.
#![tactic(auto)]

ghost use Rattle.std.specs.Prelude.{◌≡◌, ◌≤◌, ◌↔◌, IsTrue, length, option_map};
ghost use Rattle.lines.specs.code.Read.{read_at};
ghost use Rattle.reader.specs.code.NextLine.{reader_behind};

use lines::{Cursor, Line};

// The ticket bytes, and the place at which the next line begins.
#[derive(Drop)]
pub struct LineReader<'a> {
    pub text: &'a [u8],
    pub at: usize,
}

impl<'a> LineReader<'a> {
    // The reader of a text whose next line begins at a place.
    pub fn new(text: &'a [u8], at: usize) -> Self
        ensures text { result.text ≡ text.entry }
        ensures at { result.at ≡ at }
    {
        LineReader { text, at }
    }

    // Whether the text is over.
    pub fn is_over(&self) -> bool
        ensures { IsTrue result ↔ (length self.now.text.now ≤ self.now.at) }
    {
        self.text.len() <= self.at
    }

    // Reads the line at the reader's place and moves behind it; where no line begins there, the place stays.
    pub fn next_line(&mut self) -> Option<Line>
        ensures line { result ≡ option_map (λ read. read.0) (read_at self.old.text.now self.old.at) }
        ensures behind { self.new ≡ reader_behind self.old (read_at self.old.text.now self.old.at) }
    {
        let here = Cursor { at: self.at };
        let (line, next) = here.read(self.text)?;
        self.at = next.at;
        Some(line)
    }
}
