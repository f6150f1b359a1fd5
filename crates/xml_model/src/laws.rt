//! Laws of documents, statements and needs.
// These functions do nothing. The contract of each is a law, proved over the definitions alone.

ghost use Rattle.std.specs.Prelude.{◌≡◌, ◌↔◌, List, ℕ, IsTrue};
ghost use Rattle.std.specs.FinMap as map;
ghost use Rattle.xq_ast.specs.GoodNames.{are_good_in, has_good_names};
ghost use Rattle.xq_ast.specs.declared.code.Code.{Code};
ghost use Rattle.xq_ast.specs.declared.call.Call.{Call};
ghost use Rattle.xq_ast.specs.declared.call.Call.TheVariants.{Query, ShowDocuments, Update};
ghost use Rattle.xq_ast.specs.declared.tree.Expr.{Expr};
ghost use Rattle.xq_ast.specs.declared.update.Update.{Update as UpdateCall};
ghost use Rattle.xml_model.specs.declared.node.Doc.{Doc};
ghost use Rattle.xml_model.specs.Forest.{Forest, IsForest};
ghost use Rattle.xml_model.specs.Needs.{needs, AgreeAt, KeepsToNeeds};
ghost use Rattle.xml_model.specs.Edits.{updated};
ghost use Rattle.xml_model.specs.Evaluation.{eval};
ghost use Rattle.xml_model.specs.Statement.{stmt};
ghost use Rattle.xml_model.specs.Counts.{IsCounted};
ghost use Rattle.xml_model.specs.Document.{IsValid};
ghost use Rattle.xml_model.specs.ItemLines.{lines_of};
ghost use Rattle.xml_model.specs.Items.{Items, Made};
ghost use Rattle.xml_model.specs.QueryCodes.{is_query_code};
ghost use Rattle.xml_model.specs.WellFormed.{are_well_formed};
ghost use Rattle.xml_model.specs.Spelling.{SpellsWithinLimits};
ghost use Rattle.xml_model.specs.Pyx.{read, pyx, Line, Reading, after, start, split_lines, text_of, ArePlain};

/// What is written as PYX is read again.
pub fn pyx_is_read_again()
    ensures { (doc : Doc) → IsValid doc → read (pyx doc) ≡ Ok doc }
{}

/// What is read from PYX is valid.
pub fn what_is_read_is_valid()
    ensures { (lines : List Line) (doc : Doc) → read lines ≡ Ok doc → IsValid doc }
{}

/// Lines are read as a document just where they spell it, and its limits hold.
pub fn read_just_where_spelled()
    ensures { (lines : List Line) (doc : Doc) → (read lines ≡ Ok doc) ↔ SpellsWithinLimits lines doc }
{}

/// After any lines the counters, which the limits are compared with, are what has been read.
pub fn what_is_counted()
    ensures { (lines : List Line) (r : Reading) → after lines start ≡ Ok r → IsCounted r }
{}

/// The lines of a valid document's canonical text are its lines.
pub fn canonical_text_is_read_again()
    ensures { (doc : Doc) → IsValid doc → split_lines (text_of (pyx doc)) ≡ pyx doc }
{}

/// A statement that is no update and whose names are names of documents leaves a forest.
pub fn other_statements_keep_forests()
    ensures { (F : Forest) (call : Call) → IsForest F → IsTrue (has_good_names call) → ((what : UpdateCall) → call ≡ Update what → ⊥) → IsForest (stmt F call).forest }
{}

/// Every call but SHOW DOCUMENTS keeps to its needs.
pub fn calls_keep_to_their_needs()
    ensures { (call : Call) → (call ≡ ShowDocuments → ⊥) → KeepsToNeeds call }
{}

/// A query gives one value in forests that have the same documents, or none, at its needs.
pub fn queries_keep_to_their_needs()
    ensures { (F G : Forest) (expr : Expr) → AgreeAt (needs (Query expr)) F G → eval F expr ≡ eval G expr }
{}

/// What a query constructs is well-formed, where the names in it are names and it is asked of a
/// forest.
pub fn what_a_query_constructs_is_well_formed()
    ensures { (F : Forest) (expr : Expr) (items : Items) (made : Made) → IsForest F → IsTrue (are_good_in expr) → eval F expr ≡ Ok (items, made) → IsTrue (are_well_formed made) }
{}

/// Then the lines of its answer have no newlines.
pub fn lines_of_answers_are_plain()
    ensures { (F : Forest) (expr : Expr) (items : Items) (made : Made) → IsForest F → IsTrue (are_good_in expr) → eval F expr ≡ Ok (items, made) → ArePlain (lines_of (map.get F) made items) }
{}

/// A query that ends with a code ends with one that evaluation gives, and none that only a device
/// or want of memory tells.
pub fn queries_end_with_their_codes()
    ensures { (F : Forest) (expr : Expr) (code : Code) → eval F expr ≡ Err code → IsTrue (is_query_code code) }
{}

/// An update that ends with a code ends with one that a query may have.
pub fn updates_end_with_their_codes()
    ensures { (F : Forest) (what : UpdateCall) (code : Code) → updated F what ≡ Err code → IsTrue (is_query_code code) }
{}
