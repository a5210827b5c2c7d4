// The check of a source.
ghost use Rattle.std.specs.Prelude.{◌≡◌, ◌≤◌, ◌++◌, ℕ, None, IfOk, IsTrue, length};
ghost use Rattle.pdl_kit.specs.declared.rule.Rule.TheVariants as rules;
ghost use Rattle.pdl_semantics.specs.Tree as tree;
ghost use Rattle.pdl_syntax_grammar.specs.Text.{IsText, IsOutOfPlace};
ghost use Rattle.pdl_syntax_tree.specs.View.{pipe_view};
ghost use Rattle.pdl_rules.specs.Places.{places};
ghost use Rattle.pdl_rules.specs.Refusal.{refusal, first_broken, limits, after_limits};
ghost use Rattle.pdl_rules.specs.Widths.{variables as spec_variables};
ghost use Rattle.pdl_rules_stages.specs.Stages.{stages_in};
ghost use Rattle.pdl_rules_judge.specs.Known.{AreFindings};
ghost use Rattle.pdl_source_paths.specs.Source.{is_source, is_named};
ghost use Rattle.pdl_check.specs.Made.{IsMadeOf};
ghost use Rattle.pdl_check.specs.Answers.{check_answer, Gives, Refuses, IsRefused, IsChecked, IsJudged};

use crate::accepted::Accepted;
use crate::infos::infos_of;
use crate::read::read;
use crate::typed_pipe::TypedPipe;
use pdl_form::FlatPipe;
use pdl_form_lower::lower;
use pdl_kit::{MemInfo, NoMemory, Refusal, Seq};
use pdl_rules_judge::{Findings, judge as ask_rules};
use pdl_rules_widths::Variables;
use pdl_stages::{StageGraph, stage_graph};
use pdl_syntax_tree::Pipe;
use std::alloc::Global;

/// Checks a source of at most 268,435,456 bytes. A text that is no pipe is refused at its first token out of place (G1). That of a pipe is asked all rules: it is accepted where it breaks none, and else refused by the lowest rule that it breaks, at the line of that rule's lowest place.
#[tactic(auto, using(crate::proofs::CheckAnswers::checked_found, crate::proofs::CheckAnswers::checked_kept, crate::proofs::CheckAnswers::checked_only, crate::proofs::CheckAnswers::checked_exact, crate::proofs::CheckAnswers::checked_refused))]
pub fn check(alloc: Global, source: &[u8]) -> Result<Accepted, Refusal>
    requires { length source.now ≤ 268435456 }
    // What is accepted is the pipe of the text, and breaks no rule.
    ensures found { IfOk result (λ a. IsText source.now (pipe_view a.typed.pipe)) }
    ensures kept { IfOk result (λ a. refusal source.now (pipe_view a.typed.pipe) ≡ None) }
    // The text of a pipe is accepted, or refused by the rules, unless memory runs out.
    ensures only { (p : tree.Pipe) → IsText source.now p →
        Gives (check_answer source.now p) result }
    // Any other text is refused at the first token out of place, unless memory runs out.
    ensures exact { (line : ℕ) → IsOutOfPlace source.now line
        → Gives (Refuses (record { rule = rules.G1; line = line })) result }
    // A refusal tells why.
    ensures refused { IsRefused source.now result }
{
    read_and_check(alloc, source)
}

// Reads a source and asks it the rules.
fn read_and_check(alloc: Global, source: &[u8]) -> Result<Accepted, Refusal>
    requires { length source.now ≤ 268435456 }
    ensures { IsChecked source.now result }
{
    match read(alloc, source) {
        Ok(pipe) => judge(alloc, pipe),
        Err(error) => Err(error),
    }
}

// Asks the pipe of a text the rules of the tree.
fn judge(alloc: Global, pipe: Pipe) -> Result<Accepted, Refusal>
    requires source { IsTrue (is_source (pipe_view pipe)) }
    requires letters { IsTrue (is_named (pipe_view pipe)) }
    ensures { IsJudged (pipe_view pipe) result }
{
    match ask_rules(alloc, &pipe) {
        Ok(found) => Ok(accept(alloc, pipe, found)?),
        Err(refusal) => Err(refusal),
    }
}

/// What is made of a pipe that breaks no rule, beside what the rules found: its memories as they are told, its flat form, and its stages.
#[derive(Drop)]
pub struct Made {
    pub mems: Seq<MemInfo>,
    pub flat: FlatPipe,
    pub graph: StageGraph,
}

// A pipe that breaks no rule, of which this was found, with all that is kept of it.
fn accept(alloc: Global, pipe: Pipe, found: Findings) -> Result<Accepted, NoMemory>
    requires source { IsTrue (is_source (pipe_view pipe)) }
    requires letters { IsTrue (is_named (pipe_view pipe)) }
    requires kept { first_broken (limits ++ after_limits) (pipe_view pipe) ≡ None }
    requires found { AreFindings (pipe_view pipe) found }
    ensures { IfOk result (λ a. pipe_view a.typed.pipe ≡ pipe_view pipe) }
{
    let Findings {
        guards,
        variables,
        stages,
        plans,
    } = found;
    let made = make(alloc, &pipe, &variables, stages)?;
    let typed = TypedPipe::new(pipe, variables);
    Ok(Accepted {
        typed,
        guards,
        mems: made.mems,
        plans,
        flat: made.flat,
        graph: made.graph,
    })
}

// What is made of a pipe that breaks no rule, which has these variables, and whose places stand in these stages.
fn make(
    alloc: Global,
    pipe: &Pipe,
    variables: &Variables,
    stages: Vec<usize>,
) -> Result<Made, NoMemory>
    requires kept { first_broken (limits ++ after_limits) (pipe_view pipe.now) ≡ None }
    requires variables { variables.now ≡ spec_variables (pipe_view pipe.now) }
    requires stages { stages.items ≡ stages_in (places (pipe_view pipe.now)) }
    ensures { IfOk result (IsMadeOf (pipe_view pipe.now)) }
{
    let mems = infos_of(alloc, pipe.mems.as_slice())?;
    let flat = lower(alloc, pipe, variables)?;
    let graph = stage_graph(alloc, &flat, stages)?;
    Ok(Made { mems, flat, graph })
}
