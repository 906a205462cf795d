ghost use Rattle.std.specs.Prelude.{◌≡◌, ℕ, List, Some};
ghost use Rattle.prima_base.specs.declared.value.ColType.{ColType as Kind};
ghost use Rattle.prima_base.specs.declared.value.Val.{Val as OneVal};
ghost use Rattle.prima_base.specs.declared.value.Value.{Value as OneValue};
ghost use Rattle.cond_expr.specs.declared.expr.Column.{Column as OneColumn};
ghost use Rattle.cond_expr.specs.Trees.{Tree, Test, Filling, fill, fill_test, for_atoms, column};
ghost use Rattle.cond_expr.specs.Trees.{Within, TestWithin};
ghost use Rattle.cond_expr.specs.Values.{Cells, over, value, truth};
ghost use Rattle.cond_expr.specs.Kinds.{Kinds, kind_of, is_typed, kinds_of, value_kind, Fits};
ghost use Rattle.cond_expr.specs.Kinds.{AreOf};
ghost use Rattle.prima_base.specs.Columns.{IsValid};
ghost use Rattle.cond_expr.specs.declared.expr.Whose.{Whose};
ghost use Rattle.cond_expr.specs.Constants.{HasValid};
ghost use Rattle.cond_expr.specs.Rows.{flat};

/// A filled tree has the value and the type that the tree has where each reference stands for what
/// is put for it.
pub fn filling_is_substitution()
    ensures value { (at : Cells) → (s : Filling) → (t : Tree)
        → value at (fill s t) ≡ value (λ w n. value at (s w n)) t }
    ensures truth { (at : Cells) → (s : Filling) → (c : Test)
        → truth at (fill_test s c) ≡ truth (λ w n. value at (s w n)) c }
    ensures kind { (of : Kinds) → (s : Filling) → (t : Tree)
        → kind_of of (fill s t) ≡ kind_of (λ w n. kind_of of (s w n)) t }
    ensures typed { (of : Kinds) → (s : Filling) → (c : Test)
        → is_typed of (fill_test s c) ≡ is_typed (λ w n. kind_of of (s w n)) c }
{}

/// The same for trees that are put for the columns of atoms, over what these columns hold.
pub fn filling_atoms_is_substitution()
    ensures value { (at : ℕ → List ℕ → OneValue) → (s : ℕ → List ℕ → Tree) → (t : Tree)
        → value (over at) (fill (for_atoms s) t) ≡ value (over (λ i n. value (over at) (s i n))) t }
    ensures truth { (at : ℕ → List ℕ → OneValue) → (s : ℕ → List ℕ → Tree) → (c : Test)
        → truth (over at) (fill_test (for_atoms s) c)
        ≡ truth (over (λ i n. value (over at) (s i n))) c }
{}

/// A value depends on what the references of its tree stand for, and on nothing else.
pub fn values_depend_on_references_alone()
    ensures value { (at : Cells) → (by : Cells) → (t : Tree) → Within (λ w n. at w n ≡ by w n) t
        → value at t ≡ value by t }
    ensures truth { (at : Cells) → (by : Cells) → (c : Test) → TestWithin (λ w n. at w n ≡ by w n) c
        → truth at c ≡ truth by c }
{}

/// Two fillings, one after the other, are one, and a filling by each reference itself is none.
pub fn fillings_compose()
    ensures tree { (s : Filling) → (r : Filling) → (t : Tree)
        → fill s (fill r t) ≡ fill (λ w n. fill s (r w n)) t }
    ensures test { (s : Filling) → (r : Filling) → (c : Test)
        → fill_test s (fill_test r c) ≡ fill_test (λ w n. fill s (r w n)) c }
    ensures itself { (t : Tree) → fill column t ≡ t }
    ensures test_itself { (c : Test) → fill_test column c ≡ c }
{}

/// What is accepted has a value of its type, over all that is of the references' types, and so over
/// every row of the columns' types.
pub fn accepted_has_a_value_of_its_type()
    ensures kept { (of : Kinds) → (at : Cells) → (t : Tree) → (k : Kind) → Fits of at
        → kind_of of t ≡ Some k
        → value_kind (value at t) ≡ k }
    ensures row { (columns : List OneColumn) → (values : List OneVal) → AreOf columns values
        → Fits (kinds_of columns) (flat columns values) }
{}

/// An expression has a valid value where each reference stands for one and its constants are valid:
/// an INT from -2^63 to 2^63 - 1, or a TEXT of at most 4,096 bytes and no control byte.
pub fn valid_values_are_computed()
    ensures { (at : Cells) → ((w : Whose) → (n : List ℕ) → IsValid (at w n)) → (t : Tree)
        → HasValid t → IsValid (value at t) }
{}
