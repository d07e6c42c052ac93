//! Laws about the definitions, for callers.
//!
//! A law is a function with an empty body or a call of another law: its clauses are proved of the definitions.

ghost use Rattle.std.specs.Prelude.{◌≡◌, ℕ, List};
ghost use Rattle.scripted_source.specs.Script.{ScriptValue};
ghost use Rattle.scripted_source.specs.Source.{greeting_payload, ok_payload, OpensWith, IsOpening, IsAnswer, IsUnsendable};
ghost use Rattle.scripted_source.specs.declared.fault.ForgeFault.{ForgeFault};

/// What [`crate::opening`] returns opens a connection.
pub fn opens(_scramble: &[u8; 20])
    ensures { (bytes : List ℕ) → IsOpening _scramble.now bytes
        → OpensWith (greeting_payload _scramble.now) ok_payload ok_payload bytes }
{
    greet::laws::greetings();
}

/// A request either is answered by one list of bytes, or has one reason why a script cannot be sent, and not both.
pub fn one_answer()
    ensures one { (history : List ScriptValue) (request a b : List ℕ) → IsAnswer history request a
        → IsAnswer history request b → a ≡ b }
    ensures not_both { (history : List ScriptValue) (request bytes : List ℕ) (fault : ForgeFault)
        → IsAnswer history request bytes → IsUnsendable history request fault → ⊥ }
    ensures one_fault { (history : List ScriptValue) (request : List ℕ) (a b : ForgeFault)
        → IsUnsendable history request a → IsUnsendable history request b → a ≡ b }
{
    greet::laws::dumps();
}
