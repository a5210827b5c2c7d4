// What is built runs as its source does.
ghost use Rattle.std.specs.Prelude.{ℕ, List, Option};
ghost use Rattle.pdl_cli_args.specs.Line.{run, sim};
ghost use Rattle.pdl_cli.specs.Alike.{DoTheSame};
ghost use Rattle.pdl_cli_commands.specs.Commands.{IsBuilt};

/// `sim` of the text that `build` writes for a source writes what `run` of the source writes, with each text of an image, each number of cycles and each text of a delay file or none, and is refused where `run` is.
pub fn same_as_run()
    ensures { (source text : List ℕ) (netlist source_name image : List ℕ) (cycles : ℕ)
        (delays : Option (List ℕ)) → IsBuilt source text
        → DoTheSame (sim netlist image cycles delays) (run source_name image cycles delays)
        text source }
{}
