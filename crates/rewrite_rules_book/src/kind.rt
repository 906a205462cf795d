ghost use Rattle.std.specs.Prelude.{◌≡◌, not};
ghost use Rattle.std.specs.List.{find};
ghost use Rattle.smo_ops_types.specs.Operators.{operator_of};
ghost use Rattle.smo_ops_spec.specs.OperatorKinds.{operator_kind};
ghost use Rattle.piece_ir_spec.specs.Books.{place_of, is_kind, stands as is_among};
ghost use Rattle.piece_ir_spec.specs.Books.{first_twice as twice, first_missing as missing};

use prima_base::OpKind;
use smo_ops_types::Op;

/// The kind of an operator.
pub fn kind_of(op: &Op) -> OpKind
    ensures { result ≡ operator_kind (operator_of op.now) }
{
    match op {
        Op::Nop => OpKind::Nop,
        Op::CreateTable { .. } => OpKind::CreateTable,
        Op::DropTable { .. } => OpKind::DropTable,
        Op::RenameTable { .. } => OpKind::RenameTable,
        Op::CopyTable { .. } => OpKind::CopyTable,
        Op::MergeTable { .. } => OpKind::MergeTable,
        Op::PartitionTable { .. } => OpKind::PartitionTable,
        Op::DecomposeTable { .. } => OpKind::DecomposeTable,
        Op::JoinTable { .. } => OpKind::JoinTable,
        Op::AddColumn { .. } => OpKind::AddColumn,
        Op::DropColumn { .. } => OpKind::DropColumn,
        Op::RenameColumn { .. } => OpKind::RenameColumn,
    }
}

fn place(kind: OpKind) -> u8
    ensures { result ≡ place_of kind }
{
    match kind {
        OpKind::Nop => 0,
        OpKind::CreateTable => 1,
        OpKind::DropTable => 2,
        OpKind::RenameTable => 3,
        OpKind::CopyTable => 4,
        OpKind::MergeTable => 5,
        OpKind::PartitionTable => 6,
        OpKind::DecomposeTable => 7,
        OpKind::JoinTable => 8,
        OpKind::AddColumn => 9,
        OpKind::DropColumn => 10,
        OpKind::RenameColumn => 11,
    }
}

/// Whether two kinds are one.
pub fn same_kind(first: OpKind, second: OpKind) -> bool
    ensures { result ≡ is_kind first second }
{
    place(first) == place(second)
}

fn stands(kind: OpKind, kinds: &[OpKind]) -> bool
    ensures { result ≡ is_among kind kinds.now }
{
    for other in kinds {
        if same_kind(kind, *other) {
            return true;
        }
    }
    false
}

/// The first kind that stood before. Of more than twelve kinds there is one among the first
/// thirteen.
pub fn first_twice(kinds: &[OpKind]) -> Option<OpKind>
    ensures { result ≡ twice kinds.now }
{
    for i in 0..kinds.len() {
        if stands(kinds[i], &kinds[..i]) {
            return Some(kinds[i]);
        }
    }
    None
}

// The first of these kinds that is not among the others.
fn first_other(every: &[OpKind], kinds: &[OpKind]) -> Option<OpKind>
    ensures { result ≡ find (λ k. not (is_among k kinds.now)) every.now }
{
    for kind in every {
        if !stands(*kind, kinds) {
            return Some(*kind);
        }
    }
    None
}

/// The first kind, in the order of the table of operators, that is not among these.
pub fn first_missing(kinds: &[OpKind]) -> Option<OpKind>
    ensures { result ≡ missing kinds.now }
{
    let every = [
        OpKind::Nop,
        OpKind::CreateTable,
        OpKind::DropTable,
        OpKind::RenameTable,
        OpKind::CopyTable,
        OpKind::MergeTable,
        OpKind::PartitionTable,
        OpKind::DecomposeTable,
        OpKind::JoinTable,
        OpKind::AddColumn,
        OpKind::DropColumn,
        OpKind::RenameColumn,
    ];
    first_other(&every, kinds)
}
