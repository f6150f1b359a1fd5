//! Laws of tokens and calls.
// These functions do nothing. The contract of each is a law, proved over the definitions alone.

ghost use Rattle.std.specs.Prelude.{◌≡◌, ◌≤◌, ◌↔◌, ℕ, List, Result, length};
ghost use Rattle.xq_ast.specs.declared.token.Token.{Token};
ghost use Rattle.xq_ast.specs.declared.call.Call.{Call};
ghost use Rattle.xq_ast.specs.declared.call.CallText.{CallText};
ghost use Rattle.xq_ast.specs.declared.code.Code.{Code};
ghost use Rattle.xq_ast.specs.Tokens.{pieces, spelled};
ghost use Rattle.xq_ast.specs.Grammar.{IsCall};
ghost use Rattle.xq_ast.specs.Parsed.{Parsed};
ghost use Rattle.xq_ast.specs.Readings.{parsed};

/// No tokens are two calls.
#[tactic(auto, using(crate::proofs::Readings::one_call))]
pub fn tokens_are_one_call()
    ensures { (ts : List Token) (pyx : List (List ℕ)) (a b : Call) → IsCall ts pyx a → IsCall ts pyx b → a ≡ b }
{}

/// Each text is a call or is refused, and in one way: as the function that reads it says.
#[tactic(auto, using(crate::proofs::Readings::parsed_is, crate::proofs::Answered::is_parsed))]
pub fn text_has_one_answer()
    ensures { (c : CallText) (answer : Result Call Code) → Parsed c answer ↔ (parsed c ≡ answer) }
{}

/// The bound on the turns in which a text is read never tells: any that is at least the text's
/// length gives the same tokens.
#[tactic(auto, using(crate::proofs::Fuel::any_bound))]
pub fn any_bound_gives_the_tokens()
    ensures { (bound : ℕ) (bytes : List ℕ) → length bytes ≤ bound → pieces bound bytes ≡ spelled bytes }
{}
