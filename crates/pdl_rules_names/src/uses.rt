// The uses of names at a place.
ghost use Rattle.std.specs.Prelude.{◌≡◌, Bool};
ghost use Rattle.std.specs.List.{list_any};
ghost use Rattle.pdl_syntax_tree.specs.View.{expr_view, exprs_view, location_view};
ghost use Rattle.pdl_rules.specs.Names as spec;
ghost use Rattle.pdl_rules.specs.Names.{Use, OfVariable, OfMemory, OfGuess};
ghost use Rattle.pdl_rules.specs.Parts.{some_part};
ghost use Rattle.pdl_paths.specs.Actions.{place_view};

use pdl_kit::Name;
use pdl_paths::{Action, Place};
use pdl_syntax_tree::{Expr, Location};

/// A test of uses.
pub trait UseTest {
    /// It can be asked.
    ghost fits: { Self → Type 0 };

    /// Whether a use passes it.
    ghost test: { Self → Use → Bool };

    fn of_variable(&self, name: &Name) -> bool
        requires { fits self.now }
        ensures { result ≡ test self.now (OfVariable name.now) };

    fn of_memory(&self, name: &Name) -> bool
        requires { fits self.now }
        ensures { result ≡ test self.now (OfMemory name.now) };

    fn of_guess(&self, name: &Name) -> bool
        requires { fits self.now }
        ensures { result ≡ test self.now (OfGuess name.now) };
}

/// Whether a use at the place passes the test.
pub fn some_use<T: UseTest>(test: &T, place: &Place<'_>) -> bool
    requires { T.fits test.now }
    ensures { result ≡ spec.some_use (T.test test.now) (place_view place.now) }
{
    match place.action {
        Action::CombRead(_, at) | Action::DelayedRead(_, at) => in_location(test, at),
        Action::Reserve(at, _) | Action::Block(at) | Action::Release(at) => in_location(test, at),
        Action::Bind(_, e) | Action::If(e, _, _) => in_expr(test, e),
        Action::Write(at, e) => in_location(test, at) || in_expr(test, e),
        Action::SpecCall(_, args) | Action::Call(args) => in_args(test, args),
        Action::Verify(guess, args) | Action::Update(guess, args) => test.of_guess(&guess.name)
            || in_args(test, args),
        Action::Parameter(_) | Action::Memory(_) | Action::Separator => false,
        Action::SpecCheck | Action::SpecBarrier | Action::End | Action::StartClause(_) => false,
    }
}

fn in_location<T: UseTest>(test: &T, at: &Location) -> bool
    requires { T.fits test.now }
    ensures { result ≡ spec.in_location (T.test test.now) (location_view at.now) }
{
    test.of_memory(&at.mem.name) || test.of_variable(&at.address.name)
}

fn in_args<T: UseTest>(test: &T, args: &[Expr]) -> bool
    requires { T.fits test.now }
    ensures { result ≡ list_any (some_part (spec.reads_some (T.test test.now)))
        (exprs_view args.now) }
{
    for e in args {
        if in_expr(test, e) {
            return true;
        }
    }
    false
}

fn in_expr<T: UseTest>(test: &T, e: &Expr) -> bool
    requires { T.fits test.now }
    ensures { result ≡ some_part (spec.reads_some (T.test test.now)) (expr_view e.now) }
{
    match e {
        Expr::Constant(_) => false,
        Expr::Variable(x) => test.of_variable(&x.name),
        Expr::Slice { x, high: _, low: _ } => test.of_variable(&x.name),
        Expr::Not(a) => in_expr(test, a.get()),
        Expr::Binary { op: _, a, b } => in_expr(test, a.get()) || in_expr(test, b.get()),
        Expr::Cat(a, b) => in_expr(test, a.get()) || in_expr(test, b.get()),
        Expr::LessSigned(a, b) => in_expr(test, a.get()) || in_expr(test, b.get()),
        Expr::ZeroExtend(a, _) => in_expr(test, a.get()),
        Expr::SignExtend(a, _) => in_expr(test, a.get()),
        Expr::Choose(c, a, b) => {
            in_expr(test, c.get()) || (in_expr(test, a.get()) || in_expr(test, b.get()))
        }
    }
}
