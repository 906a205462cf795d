ghost use Rattle.smo_ops_types.specs.Commands.{PlainCommand};
ghost use Rattle.smo_ops_spec.specs.Past.{Past, beginning, past_with};
ghost use Rattle.version_groups.specs.Lifelines.{NamesLifelines};

use prima_base::Name;

/// How much is stored of a table over one lifeline of it: its first version and its last, which for
/// one that lives is the newest; how many keys it has, and how many cells over all its columns.
#[derive(Clone, Copy)]
pub struct SizeLine<'a> {
    pub table: &'a Name,
    pub first: u32,
    pub last: u32,
    pub keys: u64,
    pub cells: u64,
}

/// The sizes of a past are of the lifelines of its versions: so it is at the beginning, and after
/// each command more.
pub fn sizes_are_of_lifelines()
    ensures beginning { NamesLifelines beginning }
    ensures more { (past : Past) (command : PlainCommand) → NamesLifelines past
        → NamesLifelines (past_with past command) }
{}
