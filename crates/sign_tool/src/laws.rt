//! Laws about the definitions. Each law is a function that does nothing: its contract is the law.
ghost use Rattle.sign_tool.specs.Laws.{AnswersAreOne};

/// The run on a set of rows has one answer: the matrix and the set determine its steps and signs, or the lines of its
/// violator.
pub fn answers_are_one()
    ensures { AnswersAreOne }
{}
