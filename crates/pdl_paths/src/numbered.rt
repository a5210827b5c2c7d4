// Places by their numbers.
ghost use Rattle.std.specs.Prelude.{◌≡◌, ◌^◌, ◌<◌, ◌≤◌, List, length, map, slice_index_or};
ghost use Rattle.pdl_syntax_tree.specs.View.{pipe_view, stmt_view, stmts_view};
ghost use Rattle.pdl_rules.specs.Places as rules;
ghost use Rattle.pdl_paths.specs.Masks.{everywhere, mask_in, mask_of, path_of};
ghost use Rattle.pdl_paths.specs.Numbered.{Tells};

use crate::branch::guard_of;
use crate::guards::Guards;
use crate::mask::{EVERYWHERE, Mask};
use crate::path::Path;
use pdl_syntax_tree::{Pipe, Stmt};

// What a search for the place of a number finds among some places: its mask, or the number that it has among those after them.
#[derive(Clone, Copy)]
enum Found {
    Here(Mask),
    After(usize),
}

/// Whether a path leads through the place of this number, counted from 0 in text order over all places of the pipe.
///
/// The guards are those of the pipe, at most ten, and the path is one of theirs. It takes no memory: who asks of many places lists them by `places`, and asks each by `is_on`.
#[tactic(auto, using(crate::proofs::Nth::on_place))]
pub fn on_path(pipe: &Pipe, guards: &Guards, place: usize, path: Path) -> bool
    requires own { guards.now ≡ rules.guards (rules.places (pipe_view pipe.now)) }
    requires few { length guards.now ≤ 10 }
    requires there { place < length (rules.places (pipe_view pipe.now)) }
    requires path { path.bits < 2 ^ length guards.now }
    ensures { (x : rules.Place) → result ≡ rules.on_path (path_of guards.now path.bits)
        (slice_index_or (rules.places (pipe_view pipe.now)) place x) }
{
    mask_at(pipe, guards, place).allows_path(path)
}

// The mask of the place of this number.
fn mask_at(pipe: &Pipe, guards: &Guards, place: usize) -> Mask
    ensures { result ≡ slice_index_or
        (map (mask_in guards.now) (rules.places (pipe_view pipe.now))) place everywhere }
{
    let params = pipe.params.len();
    if place < params {
        return EVERYWHERE;
    }
    let mems = pipe.mems.len();
    if place - params < mems {
        return EVERYWHERE;
    }
    match search_all(
        guards,
        EVERYWHERE,
        pipe.body.as_slice(),
        place - params - mems,
    ) {
        Found::Here(mask) => mask,
        Found::After(_) => EVERYWHERE,
    }
}

// Searches a statement and what stands inside it, where the branches that it stands in have this mask.
#[cycle(search)]
fn search(guards: &Guards, mask: Mask, stmt: &Stmt, number: usize) -> Found
    ensures { (bs : List rules.Branch) → mask ≡ mask_of guards.now bs →
        Tells (map (mask_in guards.now) (rules.with_inner bs (stmt_view stmt.now))) number result }
{
    if number == 0 {
        return Found::Here(mask);
    }
    match stmt {
        Stmt::If {
            span,
            condition,
            then,
            otherwise,
        } => {
            let guard = guards.number(guard_of(*span, condition));
            let first = mask.with(guard, true);
            match search_all(guards, first, then.as_slice(), number - 1) {
                Found::Here(mask) => Found::Here(mask),
                Found::After(left) => {
                    let second = mask.with(guard, false);
                    search_all(guards, second, otherwise.as_slice(), left)
                }
            }
        }
        Stmt::Separator { .. } | Stmt::CombRead { .. } | Stmt::Bind { .. } => {
            Found::After(number - 1)
        }
        Stmt::SpecCall { .. } | Stmt::DelayedRead { .. } | Stmt::Write { .. } => {
            Found::After(number - 1)
        }
        Stmt::Reserve { .. } | Stmt::Block { .. } | Stmt::Release { .. } => {
            Found::After(number - 1)
        }
        Stmt::Call { .. } | Stmt::Verify { .. } | Stmt::Update { .. } | Stmt::SpecCheck { .. } => {
            Found::After(number - 1)
        }
        Stmt::SpecBarrier { .. } => Found::After(number - 1),
    }
}

// The same of statements in a row.
#[cycle(search)]
fn search_all(guards: &Guards, mask: Mask, stmts: &[Stmt], number: usize) -> Found
    ensures { (bs : List rules.Branch) → mask ≡ mask_of guards.now bs →
        Tells (map (mask_in guards.now) (rules.statements bs (stmts_view stmts.now)))
        number result }
{
    let mut left = number;
    for stmt in stmts {
        match search(guards, mask, stmt, left) {
            Found::Here(mask) => return Found::Here(mask),
            Found::After(further) => left = further,
        }
    }
    Found::After(left)
}
