// Actions worked through with the definitions alone.
ghost use Rattle.std.specs.Prelude.{◌≡◌, [], ◌∷◌, Ok, Err, codes, replicate};
ghost use Rattle.sb_model.specs.Expressions.{constant, removing};
ghost use Rattle.sb_model.specs.Effects.{after_action};
ghost use Rattle.sb_model.specs.WorkedFilters.{with_props, number, user};
ghost use Rattle.sb_model.specs.WorkedActions as rows;
ghost use Rattle.sb_model.specs.declared.message.PropertyValue.TheVariants as property_value;
ghost use Rattle.sb_model.specs.declared.expression.PropertyName.TheVariants as property_name;
ghost use Rattle.sb_model.specs.declared.evaluation.EvalFault.TheVariants as fault;

/// What actions make of a message: statements act in order, a system name is looked up before the
/// value is found, and an unknown value or an empty system text removes.
pub fn effect_rows()
    ensures three { rows.on_props (rows.int (codes "b") 2 ∷ []) rows.three_statements ≡ Ok (with_props (rows.int (codes "a") 1 ∷ rows.text (codes "c") (codes "x'y") ∷ [])) }
    ensures replaced { rows.on_props (rows.int (codes "a") 9 ∷ rows.int (codes "d") 4 ∷ []) rows.three_statements ≡ Ok (with_props (rows.int (codes "a") 1 ∷ rows.text (codes "c") (codes "x'y") ∷ rows.int (codes "d") 4 ∷ [])) }
    ensures unknown { rows.on_props (rows.int (codes "b") 2 ∷ []) rows.copied ≡ Ok (with_props (rows.int (codes "a") 2 ∷ rows.int (codes "c") 2 ∷ [])) }
    ensures no_property { rows.on_props [] (rows.set_system (codes "Foo") (number 1)) ≡ Err fault.NoSystemProperty }
    ensures name_before_value { rows.on_props [] (rows.set_system (codes "Foo") rows.by_nothing) ≡ Err fault.NoSystemProperty }
    ensures time_to_live { rows.on_props [] (rows.set_system (codes "TimeToLive") (number 1)) ≡ Err fault.NoSystemProperty }
    ensures removed_time_to_live { rows.on_props [] (removing (property_name.System (codes "TimeToLive")) ∷ []) ≡ Err fault.NoSystemProperty }
    ensures value_before_kind { rows.on_props [] (rows.set_system (codes "Label") rows.by_nothing) ≡ Err fault.DivideByZero }
    ensures number { rows.on_props [] (rows.set_system (codes "Label") (number 1)) ≡ Err fault.BadSystemValue }
    ensures text { after_action rows.in_session (rows.set_system (codes "LABEL") (constant (property_value.Text (codes "l")))) ≡ Ok rows.labelled }
    ensures empty_text { after_action rows.labelled (rows.set_system (codes "label") (constant (property_value.Text []))) ≡ Ok rows.in_session }
    ensures unknown_text { after_action rows.labelled (rows.set_system (codes "label") (user (codes "a"))) ≡ Ok rows.in_session }
    ensures long_id { rows.on_props [] (rows.set_system (codes "MessageId") (constant (property_value.Text (replicate 129 120)))) ≡ Err fault.BadSystemValue }
    ensures most { rows.on_props (rows.flags 256) [] ≡ Ok (with_props (rows.flags 256)) }
    ensures too_many { rows.on_props (rows.flags 257) [] ≡ Err fault.TooLarge }
{}
