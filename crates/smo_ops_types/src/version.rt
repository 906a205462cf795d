use crate::Op;
use schema_catalog::Schema;

/// A version of the schema: the moment from which it is in force, the operator that made it, the
/// operators that go back over it (none where no inverse is named), and its tables.
#[derive(Drop)]
pub struct Version {
    pub stamp: u64,
    pub op: Op,
    pub inverse: Vec<Op>,
    pub schema: Schema,
}

/// Versions 1 to the newest. Version 0 has the empty schema and is in force from moment 0.
#[derive(Drop)]
pub struct Versions {
    pub list: Vec<Version>,
}
