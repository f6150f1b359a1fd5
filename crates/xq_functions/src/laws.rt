//! Laws of functions.
ghost use Rattle.std.specs.Prelude.{◌≡◌, map};
ghost use Rattle.xml_model.specs.FunctionAnswers.{Context, rows};
ghost use Rattle.xml_model.specs.Items.{Documents, Made};
ghost use Rattle.xq_ast.specs.Functions.{functions};

/// Each function that a query may call has an answer, and each answer is one of such a function.
pub fn functions_have_answers()
    ensures { (docs : Documents) (made : Made) (cx : Context) → map (λ row. row.0) (rows docs made cx) ≡ map (λ f. f.name) functions }
{}
