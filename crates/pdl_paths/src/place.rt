// Places.
ghost use Rattle.std.specs.Prelude.{◌≡◌, ℕ, ◌^◌, ◌<◌, ◌≤◌, List, length, true};
ghost use Rattle.pdl_syntax_tree.specs.View.{span_view};
ghost use Rattle.pdl_rules.specs.Places as rules;
ghost use Rattle.pdl_paths.specs.Actions.{place_view};
ghost use Rattle.pdl_paths.specs.Masks.{IsMasked, are_distinct, path_of};

use crate::action::Action;
use crate::branch::Branch;
use crate::mask::Mask;
use crate::path::Path;
use pdl_kit::Seq;
use pdl_syntax_tree::Span;

/// A part of a source that a rule can name: what stands there, and the branches that it stands in, the outermost first.
#[derive(Drop)]
pub struct Place<'a> {
    pub action: Action<'a>,
    pub span: Span,
    pub branches: Seq<Branch<'a>>,
    /// The paths that lead through it, once `Guards::set_masks` has set it.
    pub mask: Mask,
}

impl Place<'_> {
    /// The line of its first token.
    pub fn line(&self) -> u32
        ensures { result ≡ rules.line_of (place_view self.now) }
    {
        match self.action {
            Action::Parameter(param) => param.name.span.line,
            Action::Memory(mem) => mem.name.span.line,
            Action::StartClause(start) => start.span.line,
            Action::Separator | Action::CombRead(_, _) | Action::Bind(_, _) => self.span.line,
            Action::SpecCall(_, _) | Action::DelayedRead(_, _) => self.span.line,
            Action::Write(_, _) | Action::Reserve(_, _) | Action::Block(_) => self.span.line,
            Action::Release(_) | Action::If(_, _, _) | Action::Call(_) => self.span.line,
            Action::Verify(_, _) | Action::Update(_, _) | Action::SpecCheck => self.span.line,
            Action::SpecBarrier => self.span.line,
            Action::End => self.span.line,
        }
    }

    /// Whether a path of at most ten guards leads through it, where its mask is one of these guards.
    pub fn is_on(&self, path: Path) -> bool
        ensures { (gs : List rules.Guard) → IsMasked gs self.now → are_distinct gs ≡ true →
            length gs ≤ 10 → path.bits < 2 ^ length gs →
            result ≡ rules.on_path (path_of gs path.bits) (place_view self.now) }
    {
        self.mask.allows_path(path)
    }
}
