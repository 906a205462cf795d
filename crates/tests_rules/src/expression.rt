//! An expression read from tokens, with others before and after it.
use cond_expr::{Expr, Whose};
use lexer::{parse_expr, tokens};
use std::alloc::Global;
use std::test::Fail;

// Whether the expression is the length of this column of atom 0.
fn is_length_of(expr: &Expr, column: &[u8]) -> bool {
    let Expr::Length(part) = expr else {
        return false;
    };
    let Expr::Col(reference) = &**part else {
        return false;
    };
    match reference.whose {
        Whose::Atom(0) => reference.name.bytes() == column,
        _ => false,
    }
}

// The expression that begins at this token of the text, and the place of the token after it; none
// where none begins there.
fn expression(alloc: Global, text: &[u8], from: usize) -> Option<(Expr, usize)> {
    if text.len() > 1000 {
        return None;
    }
    let Ok(list) = tokens(alloc, text) else {
        return None;
    };
    if from > list.len() {
        return None;
    }
    match parse_expr(alloc, &list, from, false) {
        Ok(found) => Some(found),
        Err(_) => None,
    }
}

#[test]
fn an_expression_is_read(rt: HostRuntime) -> Result<(), Fail> {
    let Some((expr, end)) = expression(rt.alloc(), b"AS LENGTH(b) INTO r", 1) else {
        return Err(Fail::new("an expression begins at the second token"));
    };
    // LENGTH, a bracket, the column and a bracket.
    assert!(rt; end == 5 && is_length_of(&expr, b"b"));
    Ok(())
}
