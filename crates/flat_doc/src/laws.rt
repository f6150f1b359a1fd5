//! Laws of flat pages.
// This function does nothing. Its contract is a law, proved over the definitions alone.
ghost use Rattle.std.specs.Prelude.{◌≡◌, List, ℕ};
ghost use Rattle.page_bytes.specs.declared.ids.Space.{Space};
ghost use Rattle.page_bytes.specs.Seen.{PagesByNumber};
ghost use Rattle.page_bytes.specs.Work.{Work};
ghost use Rattle.xml_model.specs.declared.node.Doc.{Doc};
ghost use Rattle.flat_doc.specs.Meaning.{StandsForFlat};
ghost use Rattle.flat_doc.specs.Putting.{with_text, KeepsOthers};

/// Pages stand for one document at most. To put a text on a space's pages keeps all other pages.
pub fn flat_laws()
    ensures others { (w : Work) (space : Space) (text : List ℕ) → KeepsOthers space w (with_text w space text) }
    ensures one { (pages : PagesByNumber) (doc other : Doc) → StandsForFlat pages doc → StandsForFlat pages other → doc ≡ other }
{}
