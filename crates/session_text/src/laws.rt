//! Laws of canonical texts, over the definitions alone.

ghost use Rattle.session_text.specs.Laws.{ValueReadsBack, TextReadsBack, SessionsReadBack, LinesReadBack};

/// The value of a sound session, read by the grammar, is the draft that the session is.
pub fn values_read_back()
    ensures { ValueReadsBack }
{}

/// The canonical text of a sound session, read by the grammar, is the draft that the session is.
pub fn texts_read_back()
    ensures { TextReadsBack }
{}

/// The canonical text of a sound session, read as a session, is that session.
pub fn sessions_read_back()
    ensures { SessionsReadBack }
{}

/// So is that text with a newline behind it.
pub fn lines_read_back()
    ensures { LinesReadBack }
{}
