//! Laws of requests and replies. Each function does nothing, and its clause is the law.
ghost use Rattle.frames.specs.Laws.{OneReplyLaw, OneRequestLaw};

/// The text of a request is that of one list of words and one list of files only.
pub fn one_request()
    ensures { OneRequestLaw }
{}

/// A text begins with the text of one reply only, so replies one after another are read as they were written.
pub fn one_reply()
    ensures { OneReplyLaw }
{}
