//! Laws of updates.
// These functions do nothing. The contract of each is a law, proved over the definitions alone.

ghost use Rattle.std.specs.Prelude.{◌≡◌, IsTrue, Ok};
ghost use Rattle.xq_ast.specs.GoodNames.{has_good_names};
ghost use Rattle.xq_ast.specs.declared.call.Call.{Call};
ghost use Rattle.xq_ast.specs.declared.call.Call.TheVariants.{Update};
ghost use Rattle.xq_ast.specs.declared.update.Update.{Update as UpdateCall};
ghost use Rattle.xml_model.specs.Edits.{updated};
ghost use Rattle.xml_model.specs.Forest.{Forest, IsForest};
ghost use Rattle.xml_model.specs.Statement.{stmt};

/// An update whose names are good leaves a forest.
pub fn updates_keep_forests()
    ensures { (F G : Forest) (what : UpdateCall) → IsForest F → IsTrue (has_good_names (Update what)) → updated F what ≡ Ok G → IsForest G }
{}

/// So does every statement whose names are good.
pub fn statements_keep_forests()
    ensures { (F : Forest) (call : Call) → IsForest F → IsTrue (has_good_names call) → IsForest (stmt F call).forest }
{}
