//! A law of edits.
// This function does nothing. Its contract is a law, proved over the definitions alone.

ghost use Rattle.std.specs.Prelude.{◌≡◌};
ghost use Rattle.std.specs.FinMap as map;
ghost use Rattle.xml_model.specs.declared.node.Doc.{Doc};
ghost use Rattle.xml_model.specs.Document.{IsValid};
ghost use Rattle.xml_model.specs.GoodEdits.{KeepForm};
ghost use Rattle.xml_model.specs.Rebuild.{Edits, rebuild};

/// A valid document is valid after edits that keep it well-formed.
pub fn edited_documents_are_valid()
    ensures { (doc new : Doc) (edits : Edits) → IsValid doc → KeepForm doc (map.get edits) → rebuild doc edits ≡ Ok new → IsValid new }
{}
