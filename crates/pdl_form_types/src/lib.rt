//! That the flat form of a pipe which keeps the rules finds its variables, memories and locks, with the widths that its statements want: what the machine, the sequential run and the circuit take of it.
//!
//! The function does nothing: its clause is a theorem on every pipe that breaks no rule of the language, and has no variable with the empty name. The tree of a text has none; the flat form gives that name to the guard of an `if` on an expression, which such a variable would be taken for.
#![tactic(auto)]

ghost use Rattle.std.specs.Prelude.{IsTrue, List, []};
ghost use Rattle.pdl_semantics.specs.Tree.{Pipe};
ghost use Rattle.pdl_rules.specs.Places.{places};
ghost use Rattle.pdl_rules.specs.Names.{OfVariable, is_undefined};
ghost use Rattle.pdl_rules.specs.Refusal.{KeepsRules};
ghost use Rattle.pdl_form.specs.Form.{form_of};
ghost use Rattle.pdl_form_types.specs.Stmts.{IsTypedForm};

/// The flat form of a pipe that keeps the rules, where no variable has the empty name, is typed.
pub fn typed_form()
    ensures { (p : Pipe) → KeepsRules p → IsTrue (is_undefined (places p) (OfVariable []))
        → IsTypedForm (form_of p) }
{}
