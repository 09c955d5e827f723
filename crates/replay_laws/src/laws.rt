//! Laws of what is kept of a list of source events.

ghost use Rattle.replay_laws.specs.Laws.{BooksAnswer, BooksGoOn};

/// What is kept answers each question that a legal history asks of the events before it.
pub fn books_answer()
    ensures { BooksAnswer }
{}

/// What is kept goes on with each event that may come next.
pub fn books_go_on()
    ensures { BooksGoOn }
{}
