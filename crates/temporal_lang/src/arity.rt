ghost use Rattle.std.specs.Prelude.{◌≡◌, ◌<◌, ◌^◌, ◌+◌, map, length, Some};
ghost use Rattle.smo_ops_spec.specs.First.{first_refusal};
ghost use Rattle.temporal_lang_spec.specs.Checking.{alike, arities_from, arities};
ghost use Rattle.temporal_lang.specs.Typings.{kind_lists};
ghost use Rattle.prima_base.specs.Faults.{IsTested};

use crate::QueryFault;
use prima_base::{ColType, Refusal};

// The same types, one for one.
fn are_alike(first: &[ColType], second: &[ColType]) -> bool
    ensures { result ≡ alike (map Some first.now) (map Some second.now) }
{
    match first {
        [] => match second {
            [] => true,
            [_, ..] => false,
        },
        [a, first @ ..] => match second {
            [] => false,
            [b, second @ ..] => *a == *b && are_alike(first, second),
        },
    }
}

// The outputs of each branch after the first have the number and the types of the first's.
fn check_others(first: &[ColType], others: &[Vec<ColType>]) -> Result<(), QueryFault>
    requires { length others.now < 2 ^ 31 }
    ensures { IsTested (first_refusal (arities_from (map Some first.now) 2 (kind_lists others.now)))
        result }
{
    for (i, other) in others.iter().enumerate() {
        if !are_alike(first, other) {
            return Err(QueryFault::Refused(Refusal::Arity(i as u32 + 2)));
        }
    }
    Ok(())
}

/// The outputs of each branch have the number and the types of the first branch's; else the refusal
/// tells the first branch, from 1, whose have not.
pub(crate) fn check_arities(kinds: &[Vec<ColType>]) -> Result<(), QueryFault>
    requires { length kinds.now < 2 ^ 31 }
    ensures { IsTested (first_refusal (arities (kind_lists kinds.now))) result }
{
    match kinds {
        [] => Ok(()),
        [first, others @ ..] => check_others(first, others),
    }
}
