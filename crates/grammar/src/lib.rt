// The grammar of a program's rows: a reader for each thing that holds an expression; refusal 3.
#![tactic(auto)]

ghost use Rattle.std.specs.Prelude.{◌≡◌, [], ◌∷◌, ◌+◌, ◌≤◌, ◌<◌, replicate};
ghost use Rattle.model.specs.Rows.{program, tag, kind, global, expression, branches, body_form_of, branch_items, lead};
ghost use Rattle.model.specs.Rows.{is_branch_count_of, declarations, whole, row_check_of};
ghost use Rattle.model.specs.Verify.{outcome};
ghost use Rattle.program.specs.Rows.{Whole, reading, from};

use model::{
    MAX_BRANCHES, MAX_DEPTH, Sizes, TAG_BRANCHES, TAG_BUILD, TAG_CALL, TAG_CASE, TAG_CONSTRUCTOR,
    TAG_FUNCTION, TAG_GIVE, TAG_GLOBAL, TAG_MADE, TAG_OPERAND, TAG_PARAMETER, TAG_PATTERN_HELD,
    TAG_PATTERN_NAME, TAG_RECEIVE, TAG_SELF, TAG_SEND, TAG_SPAWN, Verdict,
};
use program::readers::{WrongRow, call_parts, constructors, counted, made, names, pattern};
use program::rows::{is_row, num, tag};

// A case and a receive have 1 to 16 branches.
fn is_branch_count(n: usize) -> bool
    ensures { result ≡ is_branch_count_of n }
{
    1 <= n && n <= MAX_BRANCHES
}

// An expression, by the tag of its head.
#[cycle(body_form_branches_case_branches_expression_lead)]
fn expression(ws: &[u16], s: Sizes, r: usize) -> Result<usize, WrongRow>
    requires whole { Whole ws.now s }
    requires r_le_rows { r ≤ s.rows }
    ensures { reading result ≡ from (program ws.now s) (expression ∷ []) r }
{
    let n = num(ws, s, r);
    let next = r + 1;
    match tag(ws, s, r) {
        TAG_GIVE => if n < s.names {
            Ok(next)
        } else {
            Err(WrongRow(r))
        },
        TAG_BUILD..=TAG_SELF => {
            if n >= s.names {
                return Err(WrongRow(r));
            }
            let rest = lead(ws, s, r)?;
            expression(ws, s, rest)
        }
        TAG_CASE => if n < s.names {
            case_branches(ws, s, next)
        } else {
            Err(WrongRow(r))
        },
        TAG_RECEIVE => if is_branch_count(n) {
            branches(ws, s, next, n)
        } else {
            Err(WrongRow(r))
        },
        // constructors, functions, parts of expressions and patterns: none begins an expression
        TAG_CONSTRUCTOR
        | TAG_GLOBAL
        | TAG_MADE..=TAG_BRANCHES
        | TAG_PATTERN_NAME..=TAG_PATTERN_HELD => Err(WrongRow(r)),
        _ => Err(WrongRow(r)),
    }
}

// What stands between the head at row r, which binds a name, and the rest.
#[cycle(body_form_branches_case_branches_expression_lead)]
fn lead(ws: &[u16], s: Sizes, r: usize) -> Result<usize, WrongRow>
    requires whole { Whole ws.now s }
    requires r_lt_rows { r < s.rows }
    ensures { reading result ≡
        from (program ws.now s) (lead (kind (tag (program ws.now s) r))) (r + 1) }
{
    let next = r + 1;
    match tag(ws, s, r) {
        TAG_BUILD => made(ws, s, next),
        TAG_FUNCTION => body_form(ws, s, next),
        TAG_CALL => call_parts(ws, s, next),
        TAG_SEND => names(ws, s, next, 2, TAG_OPERAND),
        TAG_SPAWN => names(ws, s, next, 1, TAG_OPERAND),
        _ => Ok(next),
    }
}

// A body form: (22, parameter count), a row (23, name bound) each, and an expression.
#[cycle(body_form_branches_case_branches_expression_lead)]
fn body_form(ws: &[u16], s: Sizes, r: usize) -> Result<usize, WrongRow>
    requires whole { Whole ws.now s }
    requires r_le_rows { r ≤ s.rows }
    ensures { reading result ≡ from (program ws.now s) body_form_of r }
{
    let body = counted(ws, s, r, TAG_PARAMETER)?;
    expression(ws, s, body)
}

// (25, branch count), and the branches of a case.
#[cycle(body_form_branches_case_branches_expression_lead)]
fn case_branches(ws: &[u16], s: Sizes, r: usize) -> Result<usize, WrongRow>
    requires whole { Whole ws.now s }
    requires r_le_rows { r ≤ s.rows }
    ensures { reading result ≡ from (program ws.now s) (branches ∷ []) r }
{
    let n = num(ws, s, r);
    if tag(ws, s, r) != TAG_BRANCHES {
        return Err(WrongRow(r));
    }
    if is_branch_count(n) {
        branches(ws, s, r + 1, n)
    } else {
        Err(WrongRow(r))
    }
}

// n branches: a pattern and an expression each.
#[cycle(body_form_branches_case_branches_expression_lead)]
fn branches(ws: &[u16], s: Sizes, r: usize, n: usize) -> Result<usize, WrongRow>
    requires whole { Whole ws.now s }
    requires r_le_rows { r ≤ s.rows }
    ensures { reading result ≡ from (program ws.now s) (branch_items n) r }
{
    let mut q = r;
    for _ in 0..n {
        let body = pattern(ws, s, q, MAX_DEPTH)?;
        q = expression(ws, s, body)?;
    }
    Ok(q)
}

// The functions that hold everywhere: (11, name bound), then a body form, each.
fn globals(ws: &[u16], s: Sizes, r: usize) -> Result<usize, WrongRow>
    requires whole { Whole ws.now s }
    requires r_le_rows { r ≤ s.rows }
    ensures { reading result ≡ from (program ws.now s) (replicate s.functions global) r }
{
    let mut q = r;
    for _ in 0..s.functions {
        if !is_row(ws, s, q, TAG_GLOBAL, s.names) {
            return Err(WrongRow(q));
        }
        q = body_form(ws, s, q + 1)?;
    }
    Ok(q)
}

// Constructors and functions: what stands before the start expression.
fn declarations(ws: &[u16], s: Sizes) -> Result<usize, WrongRow>
    requires { Whole ws.now s }
    ensures { reading result ≡ from (program ws.now s) (declarations (program ws.now s)) 0 }
{
    let functions = constructors(ws, s)?;
    globals(ws, s, functions)
}

// The whole program.
fn whole(ws: &[u16], s: Sizes) -> Result<usize, WrongRow>
    requires { Whole ws.now s }
    ensures { reading result ≡ from (program ws.now s) (whole (program ws.now s)) 0 }
{
    let start = declarations(ws, s)?;
    expression(ws, s, start)
}

// Refusal 3: the first row that does not fit, the first behind the start expression, or the end.
pub fn row_check(ws: &[u16], s: Sizes) -> Result<(), Verdict>
    requires { Whole ws.now s }
    ensures { result ≡ outcome (row_check_of (program ws.now s)) }
{
    match whole(ws, s) {
        Ok(r) if r == s.rows => Ok(()),
        Ok(r) => Err(Verdict::Row(4 + r)),
        Err(WrongRow(r)) => Err(Verdict::Row(4 + r)),
    }
}
