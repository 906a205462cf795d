/// Pushes one boxed rule for each kind of operator, in the order of the table of operators, to a
/// vector of boxed rules. Where memory runs out it returns with that error, by `?`. A box is made
/// by whoever asks a book: `main`, or a test.
#[macro_export]
macro_rules! push_every_rule {
    ($alloc:expr, $rules:expr) => {{
        $rules.push(Box::new($alloc, $crate::NopRule)?)?;
        $rules.push(Box::new($alloc, $crate::CreateTableRule)?)?;
        $rules.push(Box::new($alloc, $crate::DropTableRule)?)?;
        $rules.push(Box::new($alloc, $crate::RenameTableRule)?)?;
        $rules.push(Box::new($alloc, $crate::CopyTableRule)?)?;
        $rules.push(Box::new($alloc, $crate::MergeTableRule)?)?;
        $rules.push(Box::new($alloc, $crate::PartitionTableRule)?)?;
        $rules.push(Box::new($alloc, $crate::DecomposeTableRule)?)?;
        $rules.push(Box::new($alloc, $crate::JoinTableRule)?)?;
        $rules.push(Box::new($alloc, $crate::AddColumnRule)?)?;
        $rules.push(Box::new($alloc, $crate::DropColumnRule)?)?;
        $rules.push(Box::new($alloc, $crate::RenameColumnRule)?)?;
    }};
}
