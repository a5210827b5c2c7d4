// Which pipes can be run, and what is printed.
ghost use Rattle.std.specs.Prelude.{◌≡◌, ◌++◌, ℕ, List, IsTrue, codes, decimal};
ghost use Rattle.std.specs.List.{flat_map};
ghost use Rattle.pdl_semantics.specs.Tree.{Pipe};
ghost use Rattle.pdl_semantics.specs.Flat.{arrays_of};
ghost use Rattle.pdl_semantics.specs.Flatten.{flat};
ghost use Rattle.pdl_semantics.specs.Sequential.{threads};
ghost use Rattle.pdl_semantics.specs.Lines as text;
ghost use Rattle.pdl_rules.specs.Refusal.{KeepsRules};
ghost use Rattle.pdl_form.specs.Form.{form_of};
ghost use Rattle.pdl_source_paths.specs.Source.{is_source, is_named};
ghost use Rattle.pdl_seq.specs.Runs.{IsRunnable, numbered_writes, write_line};

/// Every pipe that keeps the rules can be run, where no two `if`s on expressions begin at one byte and no variable has the empty name: so it is in every tree that is read from a source.
pub fn runnable()
    ensures { (p : Pipe) → KeepsRules p → IsTrue (is_source p) → IsTrue (is_named p) →
        IsRunnable (form_of p) }
{
    pdl_form_types::typed_form();
    pdl_source_paths::sound();
}

/// The lines of the writes of k threads, and the line that ends them, are the text of the sequential run.
pub fn lines()
    ensures { (p : Pipe) (image : List (List ℕ)) (k : ℕ) →
        flat_map (write_line (text.columns p.mems))
        (numbered_writes 1 (threads (flat p) (arrays_of image) k)) ++ codes "end threads "
        ++ decimal
        k ++ codes "\n" ≡ text.seq_lines p image k }
{}
