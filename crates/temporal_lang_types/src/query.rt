ghost use Rattle.temporal_lang_types.specs.Branches.{branches_of, IsQuery};

use crate::{Branch, Keep, When};
use prima_base::FOREVER;

/// A query on a version of the schema: the rows of all branches, at each moment that is asked of,
/// and which entries of their listing are kept. It has a branch at least, and each branch an output
/// and an item. `FOREVER` stands only as a second bound.
#[derive(Drop)]
pub struct Query {
    /// The version whose tables the query names.
    pub version: u32,
    /// The branches, in written order.
    pub branches: Vec<Branch>,
    /// Which moments are asked of.
    pub when: When,
    /// The conditions of KEEP, all of which an entry is to meet.
    pub keep: Vec<Keep>,
    pub ghost valid: { IsQuery (branches_of branches.items) when keep.items },
}

impl Query {
    ghost use Rattle.std.specs.Prelude.{◌≡◌, MatchOption};
    ghost use Rattle.temporal_lang_types.specs.Branches.{branches_of, IsQuery};
    ghost use Rattle.temporal_lang_types.specs.Queries.{a_query, query_of};

    /// The query of these parts: `Some` exactly where there is a branch, each branch has an output
    /// and an item, and `FOREVER` stands only as a second bound. It takes no memory.
    pub fn new(version: u32, branches: Vec<Branch>, when: When, keep: Vec<Keep>) -> Option<Query>
        ensures { MatchOption result (¬ IsQuery (branches_of branches.items) when keep.items)
            (λ q. query_of q ≡ a_query version (branches_of branches.items) when keep.items) }
    {
        if has_parts(&branches) && is_when(when) && are_keeps(&keep) {
            return Some(Query {
                version,
                branches,
                when,
                keep,
            });
        }
        None
    }
}

ghost use Rattle.std.specs.Prelude.{◌≡◌, ◌&&◌, nat_le, length};
ghost use Rattle.temporal_lang_types.specs.Branches.{have_parts, is_when, is_keep, are_keeps};

// Whether there is a branch, and each has an output and an item.
fn has_parts(branches: &[Branch]) -> bool
    ensures { result ≡ nat_le 1 (length branches.now) && have_parts (branches_of branches.now) }
{
    !branches.is_empty() && each_has_parts(branches)
}

fn each_has_parts(branches: &[Branch]) -> bool
    ensures { result ≡ have_parts (branches_of branches.now) }
{
    match branches {
        [] => true,
        [first, rest @ ..] => {
            !first.outs.is_empty() && !first.from.is_empty() && each_has_parts(rest)
        }
    }
}

fn is_when(when: When) -> bool
    ensures { result ≡ is_when when }
{
    match when {
        When::Always => true,
        When::AsOf(moment) => moment < FOREVER,
        When::During(start, _) => start < FOREVER,
    }
}

fn are_keeps(keep: &[Keep]) -> bool
    ensures { result ≡ are_keeps keep.now }
{
    match keep {
        [] => true,
        [first, rest @ ..] => is_keep(*first) && are_keeps(rest),
    }
}

fn is_keep(keep: Keep) -> bool
    ensures { result ≡ is_keep keep }
{
    match keep {
        Keep::Starting(first, _)
        | Keep::Ending(first, _)
        | Keep::Lasting(first, _)
        | Keep::Overlapping(first, _)
        | Keep::Covering(first) => first < FOREVER,
    }
}
