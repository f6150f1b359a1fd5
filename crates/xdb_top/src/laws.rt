// These functions do nothing. The contract of each is a law, proved over the definitions alone.

ghost use Rattle.std.specs.Prelude.{◌≡◌, ℕ, List, length};
ghost use Rattle.session_core.specs.declared.history.event.Event.{Event};
ghost use Rattle.session_core.specs.History.{past_of};
ghost use Rattle.session_core.specs.History.Transactions.{Base};
ghost use Rattle.session_core.specs.History.Closes.{Scripts, calls_of};
ghost use Rattle.session_core.specs.History.Legal.{Legal, SoFar};
ghost use Rattle.xdb_top.specs.Turns.{turns_of, turns_in, all_turns};
ghost use Rattle.script_text.specs.declared.scripts.session_calls.Script.{Script};
ghost use Rattle.xdb_top.specs.Played.{IsPlayed, IsWholePlay};
ghost use Rattle.xdb_top.specs.Wants.{HasNoWant};

/// Each session has as many turns as it has calls.
#[tactic(auto, using(crate::proofs::Turns::all_had))]
pub fn all_calls_have_their_turn()
    ensures { (P : Scripts) (order : List ℕ) (s : ℕ) → turns_of s (all_turns P order) ≡ length (calls_of P s) }
{}

/// The journal of played scripts, when all turns are had, is one legal history.
pub fn played_scripts_are_legal()
    ensures { (B : Base) (P : Scripts) (order : List ℕ) (journal : List Event) → SoFar B journal → IsPlayed B P (past_of journal) → turns_in journal ≡ all_turns P order → Legal journal B P }
{}

/// The journal of a script that was played whole is a function of the script, where no call was answered for want of memory.
pub fn plays_without_want_are_one()
    ensures { (B : Base) (script : Script) (one other : List Event) → IsWholePlay B script one → IsWholePlay B script other → HasNoWant one → HasNoWant other → one ≡ other }
{}
