ghost use Rattle.std.specs.Prelude.{◌↔◌, List};
ghost use Rattle.relations_spec.specs.Sets.{In};
ghost use Rattle.relations_spec.specs.Choices.{Chosen, choices};

/// `choices` lists just the choices of one member of each list.
pub fn choices_are_all<T>()
    ensures { (lists : List (List T)) → (choice : List T)
        → In choice (choices lists) ↔ Chosen choice lists }
{}
