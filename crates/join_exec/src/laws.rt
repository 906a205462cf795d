ghost use Rattle.std.specs.Prelude.{◌≡◌, ◌↔◌, ℕ, ◌+◌, List, [], ◌∷◌, length};
ghost use Rattle.cond_expr.specs.declared.expr.ColRef.{ColRef as Reference};
ghost use Rattle.cond_expr.specs.declared.expr.Whose.TheVariants.{Atom};
ghost use Rattle.history_store.specs.Store.{Store, column_of};
ghost use Rattle.plain_answers_spec.specs.Naming.{IsNamed, names_at};
ghost use Rattle.join_exec.specs.Reading.{reads, count_in};

/// What is read of an item depends on which of its columns are named, and neither on how often, nor
/// in which order, nor on what is named of other items: of none the keys alone, of one the keys and
/// its entries.
pub fn reads_depend_on_the_columns_named()
    ensures none { (s : Store) → (i : ℕ) → reads s (names_at i []) ≡ length s.keys }
    ensures one { (s : Store) → (i : ℕ) → (name : List ℕ)
        → reads s (names_at i (record { whose = Atom i; name = name } ∷ []))
        ≡ length s.keys + count_in (column_of s name) }
    ensures same { (s : Store) → (i : ℕ) → (a : List Reference) → (b : List Reference)
        → ((name : List ℕ) → IsNamed i a name ↔ IsNamed i b name)
        → reads s (names_at i a) ≡ reads s (names_at i b) }
{}
