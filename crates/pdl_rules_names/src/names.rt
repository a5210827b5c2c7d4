// The rules on names, in their order.
ghost use Rattle.std.specs.Prelude.{◌≡◌, ◌≤◌, [], None, IfOk, map, length, option_map};
ghost use Rattle.pdl_kit.specs.declared.rule.Rule.TheVariants as names;
ghost use Rattle.pdl_syntax_tree.specs.View.{pipe_view};
ghost use Rattle.pdl_rules.specs.Places.{places as spec_places, guards as spec_guards};
ghost use Rattle.pdl_rules.specs.Refusal.{broken_line, first_broken};
ghost use Rattle.pdl_paths.specs.Actions.{place_view};
ghost use Rattle.pdl_paths.specs.Masks.{AreMasked};
ghost use Rattle.pdl_rules_on_texts.specs.Refused.{refused_of};
ghost use Rattle.pdl_rules_names.specs.Index.{IsIndex};
ghost use Rattle.pdl_rules_names.specs.Ready.{Suits, SuitsPaths};
ghost use Rattle.pdl_rules_names.specs.Order.{name_rules};

use crate::index::Index;
use crate::rules::{TakenName, TooEarly, Undefined};
use pdl_kit::{NoMemory, Rule};
use pdl_paths::{Guards, Place};
use pdl_rules_on_texts::{Broken, line_broken};
use pdl_syntax_tree::Pipe;
use std::alloc::Global;
use std::mem::drop;

/// The lowest rule on names, N1 to N3, that a pipe with these guards and places breaks, at its lowest place; none where it keeps them.
pub fn check_names(
    alloc: Global,
    pipe: &Pipe,
    guards: &Guards,
    places: &[Place<'_>],
) -> Result<Option<Broken>, NoMemory>
    requires few { length guards.now ≤ 10 }
    requires own { guards.now ≡ spec_guards (spec_places (pipe_view pipe.now)) }
    requires masks { AreMasked guards.now places.now }
    requires places { map place_view places.now ≡ spec_places (pipe_view pipe.now) }
    ensures { IfOk result (λ broken.
        option_map refused_of broken ≡ first_broken name_rules (pipe_view pipe.now)) }
{
    let mut index = Index::new(alloc);
    let broken = lowest_filled(alloc, pipe, &mut index, guards, places);
    drop(index);
    broken
}

// The same, where there is room for the names that the places define.
fn lowest_filled(
    alloc: Global,
    pipe: &Pipe,
    index: &mut Index,
    guards: &Guards,
    places: &[Place<'_>],
) -> Result<Option<Broken>, NoMemory>
    requires few { length guards.now ≤ 10 }
    requires own { guards.now ≡ spec_guards (spec_places (pipe_view pipe.now)) }
    requires masks { AreMasked guards.now places.now }
    requires places { map place_view places.now ≡ spec_places (pipe_view pipe.now) }
    requires empty { IsIndex index.old [] }
    ensures { IfOk result (λ broken.
        option_map refused_of broken ≡ first_broken name_rules (pipe_view pipe.now)) }
{
    index.add_all(places)?;
    lowest(alloc, pipe, index, guards, places)
}

// The same with the names that the places define.
fn lowest(
    alloc: Global,
    pipe: &Pipe,
    index: &Index,
    guards: &Guards,
    places: &[Place<'_>],
) -> Result<Option<Broken>, NoMemory>
    requires few { length guards.now ≤ 10 }
    requires own { guards.now ≡ spec_guards (spec_places (pipe_view pipe.now)) }
    requires masks { AreMasked guards.now places.now }
    requires suits { Suits pipe.now index.now places.now }
    ensures { IfOk result (λ broken.
        option_map refused_of broken ≡ first_broken name_rules (pipe_view pipe.now)) }
{
    if let Some(line) = undefined_at(alloc, pipe, index, places)? {
        return Ok(Some(Broken {
            rule: Rule::N1,
            line,
        }));
    }
    if let Some(line) = taken_at(alloc, pipe, index, places)? {
        return Ok(Some(Broken {
            rule: Rule::N2,
            line,
        }));
    }
    match too_early_at(alloc, pipe, index, guards, places)? {
        Some(line) => Ok(Some(Broken {
            rule: Rule::N3,
            line,
        })),
        None => Ok(None),
    }
}

// The line that breaks N1.
fn undefined_at(
    alloc: Global,
    pipe: &Pipe,
    index: &Index,
    places: &[Place<'_>],
) -> Result<Option<u32>, NoMemory>
    requires { Suits pipe.now index.now places.now }
    ensures { IfOk result (λ line. line
        ≡ broken_line names.N1 (pipe_view pipe.now) [] (spec_places (pipe_view pipe.now))) }
{
    line_broken(alloc, &Undefined { pipe, index }, places)
}

// The line that breaks N2.
fn taken_at(
    alloc: Global,
    pipe: &Pipe,
    index: &Index,
    places: &[Place<'_>],
) -> Result<Option<u32>, NoMemory>
    requires { Suits pipe.now index.now places.now }
    ensures { IfOk result (λ line. line
        ≡ broken_line names.N2 (pipe_view pipe.now) [] (spec_places (pipe_view pipe.now))) }
{
    line_broken(alloc, &TakenName { pipe, index }, places)
}

// The line that breaks N3, where no name is defined twice.
fn too_early_at(
    alloc: Global,
    pipe: &Pipe,
    index: &Index,
    guards: &Guards,
    places: &[Place<'_>],
) -> Result<Option<u32>, NoMemory>
    requires own { guards.now ≡ spec_guards (spec_places (pipe_view pipe.now)) }
    requires suits { SuitsPaths pipe.now index.now places.now }
    ensures { IfOk result (λ line. line
        ≡ broken_line names.N3 (pipe_view pipe.now) [] (spec_places (pipe_view pipe.now))) }
{
    let rule = TooEarly {
        pipe,
        index,
        guards,
    };
    line_broken(alloc, &rule, places)
}
