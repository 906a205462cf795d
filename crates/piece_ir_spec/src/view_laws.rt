ghost use Rattle.std.specs.Prelude.{◌≡◌, None};
ghost use Rattle.prima_base.specs.declared.refusal.OpKind.{OpKind as Kind};
ghost use Rattle.schema_catalog.specs.Tables.{Tables};
ghost use Rattle.smo_ops_types.specs.Operators.{Operator};
ghost use Rattle.smo_ops_spec.specs.After.{op_fault, IsValid};
ghost use Rattle.piece_ir_spec.specs.Given.{AreViews};
ghost use Rattle.piece_ir_spec.specs.Rules.{HasViews};
ghost use Rattle.piece_ir_spec.specs.OperatorViews.{operator_views};

/// Each table that an accepted operator makes is given by its views: over every database of the
/// tables before, it has just the rows that they show, cell by cell; each view has the types of the
/// made table's columns, and its atoms are among the operator's inputs.
pub fn views_give_the_made_tables()
    ensures each { (tables : Tables) → (op : Operator) → IsValid tables → op_fault tables op ≡ None
        → AreViews tables op (operator_views tables op) }
    ensures kinds { (kind : Kind) → HasViews kind operator_views }
{}
