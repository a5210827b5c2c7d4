// A command has one refusal.
ghost use Rattle.std.specs.Prelude.{◌≡◌, ℕ, List, take};
ghost use Rattle.pdl_kit.specs.declared.rule.Rule.{Rule as rules};
ghost use Rattle.pdl_cli_args.specs.Line.{Command};
ghost use Rattle.pdl_cli_failure.specs.declared.failure.Position.{Position as positions};
ghost use Rattle.pdl_cli_commands.specs.Commands.{IsWrongFor};

/// Two refusals of one command over the same texts name one rule and one position, however many of the texts were read.
#[tactic(auto, using(crate::proofs::Refusals::one_refusal))]
pub fn one_refusal()
    ensures { (command : Command) (texts : List (List ℕ)) (m n : ℕ) (r s : rules)
        (p q : positions) → IsWrongFor command (take m texts) r p
        → IsWrongFor command (take n texts) s q → (r ≡ s) × (p ≡ q) }
{}
