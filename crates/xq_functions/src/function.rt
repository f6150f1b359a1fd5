//! Functions by their names.
ghost use Rattle.std.specs.Prelude.{◌≡◌, Ok, [], MatchOption, List};
ghost use Rattle.xml_model.specs.FunctionAnswers.{Context, call_function};
ghost use Rattle.xml_model.specs.Items.{Documents, Made, Items};
ghost use Rattle.xq_functions.specs.FunctionNames.{name_of};

/// A function, named as in `FunctionAnswers`.
#[derive(Clone, Copy, Debug, PartialEq, Eq)]
pub(crate) enum Function {
    Count,
    Empty,
    Exists,
    Not,
    True,
    False,
    /// `string`
    Text,
    Name,
    Contains,
    StartsWith,
    /// `string-length`
    TextLength,
    Concat,
    Sum,
    Position,
    Last,
}

/// The function of this name, if there is one.
pub(crate) fn function_named(name: &str) -> Option<Function>
    ensures { MatchOption result
        ((docs : Documents) (made : Made) (cx : Context) (args : List Items) → call_function docs made cx name.now args ≡ Ok [])
        (λ f. name.now ≡ name_of f) }
{
    match name {
        "count" => Some(Function::Count),
        "empty" => Some(Function::Empty),
        "exists" => Some(Function::Exists),
        "not" => Some(Function::Not),
        "true" => Some(Function::True),
        "false" => Some(Function::False),
        "string" => Some(Function::Text),
        "name" => Some(Function::Name),
        "contains" => Some(Function::Contains),
        "starts-with" => Some(Function::StartsWith),
        "string-length" => Some(Function::TextLength),
        "concat" => Some(Function::Concat),
        "sum" => Some(Function::Sum),
        "position" => Some(Function::Position),
        "last" => Some(Function::Last),
        _ => None,
    }
}
