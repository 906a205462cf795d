//! Pieces, with ample memory: a copy, a column looked for, and an expression put for one.
use cond_expr::{CmpOp, ColRef, Cond, Expr, Whose};
use piece_ir::{Piece, needs, substitute};
use prima_base::Name;
use std::test::Fail;

// A reference to a column of atom 0.
macro_rules! column {
    ($alloc:expr, $name:expr) => {
        Expr::Col(ColRef {
            whose: Whose::Atom(0),
            name: Name::new($alloc, $name)?,
        })
    };
}

// `SELECT a = t0.b FROM t WHERE t0.b = t0.c`
macro_rules! a_piece {
    ($alloc:expr) => {{
        let mut atoms = Vec::new($alloc);
        atoms.push(Name::new($alloc, b"t")?)?;
        let mut outs = Vec::new($alloc);
        outs.push((Name::new($alloc, b"a")?, column!($alloc, b"b")))?;
        let left = column!($alloc, b"b");
        let right = column!($alloc, b"c");
        Piece { atoms, cond: Cond::compare($alloc, CmpOp::Eq, left, right)?, outs }
    }};
}

#[test]
fn a_column_is_put_and_found(rt: HostRuntime) -> Result<(), Fail> {
    let alloc = rt.alloc();
    let piece = a_piece!(alloc);
    let b = Name::new(alloc, b"b")?;
    let d = Name::new(alloc, b"d")?;
    assert!(rt; needs(&piece, 0, &b) && !needs(&piece, 1, &b) && !needs(&piece, 0, &d));
    let copy = piece.copy(alloc)?;
    assert!(rt; needs(&copy, 0, &b));
    let put = substitute(alloc, &piece, 0, &b, &column!(alloc, b"d"))?;
    assert!(rt; needs(&put, 0, &d) && !needs(&put, 0, &b));
    Ok(())
}
