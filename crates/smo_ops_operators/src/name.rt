use prima_base::Name;

/// At most two names of tables, in the order in which the operator names them.
#[derive(Clone, Copy)]
pub struct Made<'a> {
    pub first: Option<&'a Name>,
    pub second: Option<&'a Name>,
}

impl Made<'_> {
    ghost use Rattle.std.specs.Prelude.{◌≡◌};
    ghost use Rattle.smo_ops_operators.specs.Names.{is_one_of};

    /// Whether the name is one of these. It takes no memory.
    pub fn has(self, name: &Name) -> bool
        ensures { result ≡ is_one_of self.entry name.now }
    {
        match self.first {
            None => false,
            Some(first) => {
                name == first
                    || match self.second {
                        None => false,
                        Some(second) => name == second,
                    }
            }
        }
    }
}

ghost use Rattle.std.specs.Prelude.{◌≡◌, Some, None};
ghost use Rattle.std.specs.Option.{option_copied};

pub(crate) fn none<'a>() -> Made<'a>
    ensures first { option_copied result.first ≡ None }
    ensures second { option_copied result.second ≡ None }
{
    Made {
        first: None,
        second: None,
    }
}

pub(crate) fn one(name: &Name) -> Made<'_>
    ensures first { option_copied result.first ≡ Some name.now }
    ensures second { option_copied result.second ≡ None }
{
    Made {
        first: Some(name),
        second: None,
    }
}

pub(crate) fn two<'a>(first: &'a Name, second: &'a Name) -> Made<'a>
    ensures first { option_copied result.first ≡ Some first.now }
    ensures second { option_copied result.second ≡ Some second.now }
{
    Made {
        first: Some(first),
        second: Some(second),
    }
}
