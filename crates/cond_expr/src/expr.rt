use prima_base::{ColType, Name, Value};

/// Whose column a reference names. `Free` and `Alias` stand only in a query as written; what is
/// typed and evaluated names each column by its atom, counted from 0.
#[derive(Drop)]
pub enum Whose {
    /// A column of any item of the FROM, as `a`.
    Free,
    /// A column of the item with this alias, as `t.a`.
    Alias(Name),
    /// A column of this atom.
    Atom(u32),
}

/// A reference to a column.
#[derive(Drop)]
pub struct ColRef {
    /// Whose column it is.
    pub whose: Whose,
    /// The column's name.
    pub name: Name,
}

impl ColRef {
    ghost use Rattle.std.specs.Prelude.{◌≡◌};
    ghost use Rattle.cond_expr.specs.Rows.{names};

    /// Whether it names this column: it is to the column's atom and has its name. It takes no
    /// memory.
    pub fn names(&self, column: &Column) -> bool
        ensures { result ≡ names self.now.whose self.now.name column.now }
    {
        match self.whose {
            Whose::Atom(atom) => column.atom == atom && self.name == column.name,
            Whose::Free | Whose::Alias(_) => false,
        }
    }
}

/// An expression.
#[cycle(tree)]
#[derive(Drop)]
pub enum Expr {
    /// What the column holds that the reference names, of its type.
    Col(ColRef),
    /// The value itself.
    Const(Value),
    /// The number of bytes of a text, an INT.
    Length(Box<Expr>),
    /// The first 4,096 bytes of the joined texts, a TEXT. Of no part it is the empty text.
    Concat(Vec<Expr>),
    /// The first expression where the condition holds, and else the second. Both are of one type.
    Case(Box<Cond>, Box<Expr>, Box<Expr>),
}

/// How two values of one type are compared: INTs by number, TEXTs by their bytes.
#[derive(Clone, Copy, PartialEq, Eq)]
pub enum CmpOp {
    /// `=`
    Eq,
    /// `<>`
    Ne,
    /// `<`
    Lt,
    /// `<=`
    Le,
    /// `>`
    Gt,
    /// `>=`
    Ge,
}

/// A condition.
#[cycle(tree)]
#[derive(Drop)]
pub enum Cond {
    /// It never holds.
    False,
    /// It always holds.
    True,
    /// A comparison of two expressions of one type, the left side first.
    Cmp(CmpOp, Box<Expr>, Box<Expr>),
    /// All of these hold. An empty one holds.
    And(Vec<Cond>),
    /// One of these holds. An empty one does not.
    Or(Vec<Cond>),
    /// It does not hold.
    Not(Box<Cond>),
}

/// A column of an atom, with its type.
#[derive(Drop)]
pub struct Column {
    /// The atom, counted from 0.
    pub atom: u32,
    /// The column's name.
    pub name: Name,
    /// The type of what it holds.
    pub kind: ColType,
}

/// How large a tree is. Each number stops at `u64::MAX`.
#[derive(Clone, Copy)]
pub struct TreeSize {
    /// The expressions and conditions in the tree, itself included.
    pub nodes: u64,
    /// The longest path, counted in such nodes.
    pub depth: u64,
    /// The longest `Concat` list.
    pub parts: u64,
}
