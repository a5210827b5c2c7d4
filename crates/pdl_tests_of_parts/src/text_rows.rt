// What the recogniser answers, which the program asks token by token, and the parser of texts over the limit of length, of which the program reads no tree. The places of statements.
use pdl_kit::Rule;
use pdl_syntax::ParseError;
use pdl_syntax::misplaced::misplaced_line;
use pdl_syntax::parse::parse;
use pdl_syntax_tree::{Span, Stmt};
use std::alloc::Global;
use std::process::Abort;

// Items with a pipe around them, from line 2 on.
fn with_items(alloc: Global, items: &[u8]) -> Vec<u8> {
    let mut text = Vec::new(alloc);
    let _ = text.extend_from_slice(
        b"pipe p(n: uint<4>, k: uint<1>)[m: uint<8>[4] comb lock bypass(1), o: uint<8>[4] delayed] {\n",
    );
    let _ = text.extend_from_slice(items);
    let _ = text.extend_from_slice(b"} start p(4'd0, 1'h1);");
    text
}

// The line of the first token out of place, or 0 for a text of the grammar.
fn line_of(alloc: Global, source: &[u8]) -> Option<u32> {
    if source.len() > 3_000_000 {
        return None;
    }
    match misplaced_line(alloc, source) {
        Ok(line) => Some(line.unwrap_or(0)),
        Err(_) => None,
    }
}

const ITEMS: [(&[u8], u32); 17] = [
    (b"", 0),
    (
        b"x = m[a]; y = n[3:0] + cat(n, ~n) * lts(n, n); z <- o[a]; m[a] <- sext(zext(n, 8), 9);",
        0,
    ),
    (b"x = n\n+;", 3),
    (b"x = n[3\n,0];", 3),
    (b"x = m[a]\n+ n;", 3),
    (b"x = n ? n ? n : n : n ? n : (n);", 0),
    (b"x = n ? n\n;", 3),
    (b"x = cat(n\n);", 3),
    (
        b"g = spec_call(n, n); update(g, n, n); verify(g, n, n); spec_check(); spec_barrier(); call(n);",
        0,
    ),
    (b"verify(g\n);", 3),
    (
        b"reserve(m[a], R); acquire(m[a], W); block(m[a]); release(m[a]);",
        0,
    ),
    (b"block(m[a]\n, R);", 3),
    (b"if (n) { x = n; } else { if (n) { --- } --- } ---", 0),
    (b"if (n) {} else {}\nelse {}", 3),
    (b"if (n) {\n", 3),
    (b"x = n", 2),
    (b";", 2),
];

const TEXTS: [(&[u8], u32); 3] = [
    (b"pipe\np(\n\n", 4),
    (b"", 1),
    (
        b"pipe p(n: uint<1>)[m: uint<1>[2] comb] {} start p(1'd0);\n;",
        2,
    ),
];

fn ask_items(rt: &impl Abort, alloc: Global, rows: &[(&[u8], u32)]) {
    for row in rows {
        let (items, line) = *row;
        assert!(rt; line_of(alloc, &with_items(alloc, items)) == Some(line));
    }
}

fn ask_texts(rt: &impl Abort, alloc: Global, rows: &[(&[u8], u32)]) {
    for row in rows {
        let (text, line) = *row;
        assert!(rt; line_of(alloc, text) == Some(line));
    }
}

#[test]
fn first_token_out_of_place(rt: HostRuntime) {
    ask_items(&rt, rt.alloc(), &ITEMS);
    ask_texts(&rt, rt.alloc(), &TEXTS);
}

// A piece so many times more.
fn add_times(text: &mut Vec<u8>, piece: &[u8], times: usize) {
    for _turn in 0..times {
        let _ = text.extend_from_slice(piece);
    }
}

// `x = n` and so many operands more, each on a line, in so many brackets.
fn sum(alloc: Global, depth: usize, operators: usize) -> Vec<u8> {
    let mut items = Vec::new(alloc);
    let _ = items.extend_from_slice(b"x = ");
    add_times(&mut items, b"(", depth);
    let _ = items.push(b'n');
    add_times(&mut items, b")", depth);
    add_times(&mut items, b"\n<n", operators);
    let _ = items.push(b';');
    with_items(alloc, &items)
}

#[test]
fn limits_of_statements(rt: HostRuntime) {
    let alloc = rt.alloc();
    assert!(rt; line_of(alloc, &sum(alloc, 63, 256)) == Some(0));
    assert!(rt; line_of(alloc, &sum(alloc, 64, 0)) == Some(2));
    assert!(rt; line_of(alloc, &sum(alloc, 0, 257)) == Some(259));
}

// A pipe in a text of so many bytes, and these after it.
fn long_text(alloc: Global, size: usize, after: &[u8]) -> Vec<u8> {
    let mut text = with_items(alloc, b"");
    let _ = text.extend_from_slice(b"//");
    let _ = text.resize(size, b'a');
    let _ = text.extend_from_slice(after);
    text
}

// Why a text isn't parsed.
fn refusal_of(alloc: Global, text: &[u8]) -> Option<ParseError> {
    if text.len() > 3_000_000 {
        return None;
    }
    parse(alloc, text).err()
}

#[test]
fn long_texts(rt: HostRuntime) {
    let alloc = rt.alloc();
    let over = ParseError::Limit {
        rule: Rule::Z1,
        line: 1,
    };
    let misplaced = ParseError::Grammar { line: 3 };
    assert!(rt; refusal_of(alloc, &long_text(alloc, 1_048_576, b"")).is_none());
    assert!(rt; refusal_of(alloc, &long_text(alloc, 1_048_577, b"")) == Some(over));
    assert!(rt; refusal_of(alloc, &long_text(alloc, 1_048_577, b"\n;")) == Some(misplaced));
}

fn span_of(stmt: &Stmt) -> Span {
    match stmt {
        Stmt::Separator { span } => *span,
        Stmt::CombRead { span, .. } => *span,
        Stmt::Bind { span, .. } => *span,
        Stmt::SpecCall { span, .. } => *span,
        Stmt::DelayedRead { span, .. } => *span,
        Stmt::Write { span, .. } => *span,
        Stmt::Reserve { span, .. } => *span,
        Stmt::Block { span, .. } => *span,
        Stmt::Release { span, .. } => *span,
        Stmt::If { span, .. } => *span,
        Stmt::Call { span, .. } => *span,
        Stmt::Verify { span, .. } => *span,
        Stmt::Update { span, .. } => *span,
        Stmt::SpecCheck { span } => *span,
        Stmt::SpecBarrier { span } => *span,
    }
}

// The line, the first byte, and the byte after the last.
type At = (u32, u32, u32);

fn is_at(span: Span, at: At) -> bool {
    (span.line, span.start, span.end) == at
}

fn are_at(stmts: &[Stmt], places: &[At]) -> bool {
    for (stmt, at) in stmts.iter().zip(places) {
        if !is_at(span_of(stmt), *at) {
            return false;
        }
    }
    stmts.len() == places.len()
}

// A text, where the statements of its body stand, and where its end and its start do.
type Placed = (&'static [u8], &'static [At], At, At);

const COUNTER: Placed = (
    b"pipe p(n: uint<4>)[m: uint<8>[4] comb lock queue(1)] { a = n[1:0]; v = zext(n, 8); reserve(m[a], W); block(m[a]); m[a] <- v; release(m[a]); call(n + 4'd1); } start p(4'd0);",
    &[
        (1, 55, 66),
        (1, 67, 82),
        (1, 83, 100),
        (1, 101, 113),
        (1, 114, 124),
        (1, 125, 139),
        (1, 140, 155),
    ],
    (1, 156, 157),
    (1, 158, 172),
);

const GUESSES: Placed = (
    b"pipe two(a: uint<04>,\nb_1: uint<65>)[x: uint<8>[3] delayed, y: uint<0>[4] delayed lock rename(9), z: uint<1>[2] comb lock bypass(4)] {\n  acquire(x[a], R);\n u <- x[a];\n---\n g = spec_call(u, a);\nverify(g, a, u); spec_check(\n); spec_barrier();}\nstart\nq(5'd1, 64'h10);",
    &[
        (3, 137, 154),
        (3, 137, 154),
        (4, 156, 166),
        (5, 167, 170),
        (6, 172, 192),
        (7, 193, 209),
        (7, 210, 224),
        (8, 225, 240),
    ],
    (8, 240, 241),
    (9, 242, 264),
);

const BRANCHES: Placed = (
    b"pipe s(n: uint<1>)[m: uint<8>[4] comb] {if (n) {} if (n) {---} else {}\nif (~n) { x = n; if (n) { } else { --- y = n; } z = n; } else { if (n) { call(n); } }\n}\nstart s(1'd0);",
    &[(1, 40, 49), (1, 50, 70), (2, 71, 156)],
    (3, 157, 158),
    (4, 159, 173),
);

// Whether the parts of a text stand as it says.
fn is_placed(alloc: Global, placed: &Placed) -> bool {
    let (text, stmts, end, start) = *placed;
    if text.len() > 1000 {
        return false;
    }
    match parse(alloc, text) {
        Ok(pipe) => {
            are_at(pipe.body.as_slice(), stmts)
                && is_at(pipe.end, end)
                && is_at(pipe.start.span, start)
        }
        Err(_) => false,
    }
}

#[test]
fn places_of_statements(rt: HostRuntime) {
    assert!(rt; is_placed(rt.alloc(), &COUNTER));
    assert!(rt; is_placed(rt.alloc(), &GUESSES));
    assert!(rt; is_placed(rt.alloc(), &BRANCHES));
}
