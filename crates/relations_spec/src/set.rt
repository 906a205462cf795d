ghost use Rattle.std.specs.Prelude.{◌≡◌, ◌↔◌, List};
ghost use Rattle.relations_spec.specs.Sets.{In, Same, Ascends, set_of, IsExact};

/// Two relations with the same members are one list.
pub fn same_members_same_relation<T: Ord>()
    ensures { IsExact T.cmp → (xs : List T) → (ys : List T) → Ascends T.cmp xs → Ascends T.cmp ys
        → Same xs ys → xs ≡ ys }
{}

/// `set_of` gives the relation that has just the members of a list.
pub fn set_is_the_relation<T: Ord>()
    ensures ascends { IsExact T.cmp → (xs : List T) → Ascends T.cmp (set_of T.cmp xs) }
    ensures members { IsExact T.cmp → (xs : List T) → (x : T) → In x (set_of T.cmp xs) ↔ In x xs }
{}
