// Files that tell what they hold.
ghost use Rattle.std.specs.Prelude.{ℕ, Some};
ghost use Rattle.std.specs.declared.result.Result.{Result as results};
ghost use Rattle.pdl_system.specs.Files.{Held, AreTold};
ghost use Rattle.pdl_cli_args.specs.Line.{Command};
ghost use Rattle.pdl_cli_failure.specs.declared.failure.Failure.{Failure as failures};
ghost use Rattle.pdl_cli_failure.specs.Failures.{status_of};
ghost use Rattle.pdl_cli_commands.specs.Outcomes.{Seen, Explains};
ghost use Rattle.pdl_cli.specs.Told.{HasComeOf, IsDecidedBy};

/// Where files tell what they hold, and reads gave that, an outcome that is explained has its cause in what the files hold, and that decides its status.
#[tactic(auto, using(crate::proofs::ToldFiles::come_of, crate::proofs::ToldFiles::decided_by))]
pub fn told_files()
    ensures come { (held : Held) (command : Command) (s : Seen) (o : results (Unit {0}) failures)
        → AreTold (Some held) s.reads → Explains (Some command) s o
        → HasComeOf held command s o }
    ensures decided { (held : Held) (command : Command) (s : Seen) (o : results (Unit {0}) failures)
        → AreTold (Some held) s.reads → Explains (Some command) s o
        → IsDecidedBy held command s (status_of o) }
{}
