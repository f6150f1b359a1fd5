// These functions do nothing. The contract of each is a law, proved over the definitions alone.

ghost use Rattle.std.specs.Prelude.{List, [], ◌∷◌, ◌++◌};
ghost use Rattle.session_core.specs.declared.history.event.Event.{Event};
ghost use Rattle.session_core.specs.History.{past_of};
ghost use Rattle.session_core.specs.History.Legal.{SoFar};
ghost use Rattle.session_core.specs.History.Steps.{IsStep};
ghost use Rattle.session_core.specs.History.Transactions.{Base};
ghost use Rattle.session_core.specs.History.Answering.{AnswersKeepLegal};

/// A journal without events is legal so far.
pub fn an_empty_journal_is_legal()
    ensures { (B : Base) → SoFar B [] }
{}

/// A journal that is legal so far is legal with one event more that meets its own clauses. So locks
/// that are kept to a transaction's end, and calls that keep to their needs, make one serial order
/// of all transactions.
pub fn a_legal_journal_grows()
    ensures { (B : Base) (journal : List Event) (e : Event) → SoFar B journal → IsStep B e (past_of journal) → SoFar B (journal ++ e ∷ []) }
{}

/// A journal that is legal so far is legal with one right answer more, where its session's last
/// event lets an answer follow. What is right is told by the session's state and by the documents
/// that its transaction sees, and not by what other sessions do.
pub fn right_answers_keep_a_journal_legal()
    ensures { AnswersKeepLegal }
{}
