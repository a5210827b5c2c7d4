// What stands inside branches.
ghost use Rattle.std.specs.Prelude.{◌≡◌, ◌-◌, ◌==◌, [], not, length};
ghost use Rattle.pdl_semantics.specs.Flatten.{separators_in};
ghost use Rattle.pdl_syntax_tree.specs.View.{stmt_view, stmts_view};
ghost use Rattle.pdl_rules.specs.Places.{with_inner, statements};
ghost use Rattle.pdl_rules.specs.Forks as forks;

use pdl_syntax_tree::Stmt;

// Whether a separator stands in a statement.
#[cycle(separator)]
fn is_cut(s: &Stmt) -> bool
    ensures { result ≡ not (separators_in (stmt_view s.now) == 0) }
{
    match s {
        Stmt::Separator { .. } => true,
        Stmt::If {
            then,
            otherwise,
            ..
        } => holds_separator(then.as_slice()) || holds_separator(otherwise.as_slice()),
        Stmt::CombRead { .. } | Stmt::Bind { .. } | Stmt::SpecCall { .. } => false,
        Stmt::DelayedRead { .. } | Stmt::Write { .. } | Stmt::Reserve { .. } => false,
        Stmt::Block { .. } | Stmt::Release { .. } | Stmt::Call { .. } => false,
        Stmt::Verify { .. } | Stmt::Update { .. } | Stmt::SpecCheck { .. } => false,
        Stmt::SpecBarrier { .. } => false,
    }
}

/// Whether a separator stands somewhere in these statements.
#[cycle(separator)]
pub fn holds_separator(ss: &[Stmt]) -> bool
    ensures { result ≡ forks.holds_separator (stmts_view ss.now) }
{
    for s in ss {
        if is_cut(s) {
            return true;
        }
    }
    false
}

// How many of so many places are left after a statement and what stands inside it.
#[cycle(places)]
fn left_after_one(s: &Stmt, left: usize) -> usize
    ensures { result ≡ left - length (with_inner [] (stmt_view s.now)) }
{
    let after = left.saturating_sub(1);
    match s {
        Stmt::If {
            then,
            otherwise,
            ..
        } => {
            let first = left_after(then.as_slice(), after);
            left_after(otherwise.as_slice(), first)
        }
        Stmt::Separator { .. } | Stmt::CombRead { .. } | Stmt::Bind { .. } => after,
        Stmt::SpecCall { .. } | Stmt::DelayedRead { .. } | Stmt::Write { .. } => after,
        Stmt::Reserve { .. } | Stmt::Block { .. } | Stmt::Release { .. } => after,
        Stmt::Call { .. } | Stmt::Verify { .. } | Stmt::Update { .. } => after,
        Stmt::SpecCheck { .. } => after,
        Stmt::SpecBarrier { .. } => after,
    }
}

/// How many of so many places are left after these statements and what stands inside them, 0 where these have as many or more.
#[cycle(places)]
pub fn left_after(ss: &[Stmt], left: usize) -> usize
    ensures { result ≡ left - length (statements [] (stmts_view ss.now)) }
{
    let mut left = left;
    for s in ss {
        left = left_after_one(s, left);
    }
    left
}
