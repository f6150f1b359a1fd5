// Laws over the definitions alone.
ghost use Rattle.script_text.specs.JournalRead.{TextTellsItsJournal};
ghost use Rattle.script_text.specs.Spelling.{IsReadAgain};

/// A script is read as it was spelled, with lines that are skipped and orders anywhere.
#[tactic(auto, using(crate::proofs::SpelledAgain::spelled_is_read))]
pub fn scripts_are_read_again()
    ensures { IsReadAgain }
{}

/// Journals as programs print them with one text differ only in what a text does not tell: the
/// calls of answers, the needs of refusals, and marks.
#[tactic(auto, using(crate::proofs::TextTells::text_tells_its_journal))]
pub fn a_text_tells_its_journal()
    ensures { TextTellsItsJournal }
{}
