//! Where a script stands after some bytes: in plain text, a text literal or a comment.

ghost use Rattle.std.specs.Prelude.{◌≡◌, ◌==◌, ◌&&◌, if◌then◌else◌};
ghost use Rattle.script_parse.specs.Script.{next, is_end, is_quiet, is_settled};

use lexer::is_blank;

/// Where a byte stands: outside texts and comments, there after a single dash, in a text literal,
/// or in a comment.
#[derive(Clone, Copy)]
pub(crate) enum Mode {
    Plain,
    Dash,
    Quoted,
    Comment,
}

// Outside texts and comments: `dashed` is where a dash leads.
fn next_outside(byte: u8, dashed: Mode) -> Mode
    ensures { result ≡ (if byte == 39 then Mode.Quoted
        else (if byte == 45 then dashed else Mode.Plain)) }
{
    match byte {
        b'\'' => Mode::Quoted,
        b'-' => dashed,
        _ => Mode::Plain,
    }
}

impl Mode {
    /// Where the byte leaves the script.
    pub(crate) fn next(self, byte: u8) -> Mode
        ensures { result ≡ next self byte }
    {
        match self {
            Mode::Plain => next_outside(byte, Mode::Dash),
            Mode::Dash => next_outside(byte, Mode::Comment),
            Mode::Quoted if byte == b'\'' => Mode::Plain,
            Mode::Comment if byte == b'\n' => Mode::Plain,
            Mode::Quoted => Mode::Quoted,
            Mode::Comment => Mode::Comment,
        }
    }

    /// Whether the byte ends the statement.
    pub(crate) fn is_end(self, byte: u8) -> bool
        ensures { result ≡ is_end self byte }
    {
        match self {
            Mode::Plain | Mode::Dash => byte == b';',
            Mode::Quoted | Mode::Comment => false,
        }
    }

    // Whether the byte is a blank, or a comment's if a second dash comes after a first.
    fn is_quiet(self, byte: u8) -> bool
        ensures { result ≡ is_quiet self byte }
    {
        match self {
            Mode::Plain => is_blank(byte) || byte == b'-',
            Mode::Dash => byte == b'-',
            Mode::Quoted => false,
            Mode::Comment => true,
        }
    }

    /// Whether the bytes of a statement stay blanks and comments, if they are so before this one.
    pub(crate) fn stays_quiet(self, before: bool, byte: u8) -> bool
        ensures { result ≡ (before && is_quiet self byte) }
    {
        before && self.is_quiet(byte)
    }

    /// Whether the script may end there: no dash is left alone, and no text is open.
    pub(crate) fn is_settled(self) -> bool
        ensures { result ≡ is_settled self }
    {
        matches!(self, Mode::Plain | Mode::Comment)
    }
}
