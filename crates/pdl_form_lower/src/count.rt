// How many stages begin in some statements.
ghost use Rattle.std.specs.Prelude.{◌≡◌, ◌≤◌};
ghost use Rattle.pdl_semantics.specs.Flatten as spec;
ghost use Rattle.pdl_syntax_tree.specs.View.{stmt_view, stmts_view};

use pdl_syntax_tree::Stmt;

/// How many `---` stand in a statement.
#[cycle(separators)]
pub fn separators_in(s: &Stmt) -> usize
    requires { spec.separators_in (stmt_view s.now) ≤ 63 }
    ensures { result ≡ spec.separators_in (stmt_view s.now) }
{
    match s {
        Stmt::Separator { .. } => 1,
        Stmt::If {
            then,
            otherwise,
            ..
        } => separators(then.as_slice()) + separators(otherwise.as_slice()),
        Stmt::CombRead { .. } | Stmt::Bind { .. } | Stmt::SpecCall { .. } => 0,
        Stmt::DelayedRead { .. } | Stmt::Write { .. } | Stmt::Reserve { .. } => 0,
        Stmt::Block { .. } | Stmt::Release { .. } | Stmt::Call { .. } => 0,
        Stmt::Verify { .. } | Stmt::Update { .. } | Stmt::SpecCheck { .. } => 0,
        Stmt::SpecBarrier { .. } => 0,
    }
}

/// How many `---` stand in statements.
#[cycle(separators)]
pub fn separators(ss: &[Stmt]) -> usize
    requires { spec.separators (stmts_view ss.now) ≤ 63 }
    ensures { result ≡ spec.separators (stmts_view ss.now) }
{
    let mut count = 0;
    for s in ss {
        count += separators_in(s);
    }
    count
}
