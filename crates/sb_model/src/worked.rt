// Some filters, worked through with the definitions alone.
ghost use Rattle.std.specs.Prelude.{◌≡◌, Ok, Err, codes, false};
ghost use Rattle.sb_model.specs.Expressions.{constant, existing, unary, binary};
ghost use Rattle.sb_model.specs.Meaning.{truth_on};
ghost use Rattle.sb_model.specs.WorkedFilters.{number, user, equals, less_than_zero, one_or_b, with_a, is_not_red, by_zero, least, on_plain};
ghost use Rattle.sb_model.specs.declared.message.PropertyValue.TheVariants as property_value;
ghost use Rattle.sb_model.specs.declared.expression.PropertyName.TheVariants as property_name;
ghost use Rattle.sb_model.specs.declared.expression.UnaryOperator.TheVariants as unary_operator;
ghost use Rattle.sb_model.specs.declared.expression.BinaryOperator.TheVariants as binary_operator;
ghost use Rattle.sb_model.specs.declared.truth.Truth.TheVariants as truth;
ghost use Rattle.sb_model.specs.declared.evaluation.EvalFault.TheVariants as fault;

/// What filters come to: division cuts towards zero, what isn't there is unknown, and all parts
/// are evaluated.
pub fn worked_filters()
    ensures cut { on_plain (equals (binary binary_operator.Divide (number 7) (less_than_zero 2)) (less_than_zero 3)) ≡ Ok truth.True }
    ensures remainder { on_plain (equals (binary binary_operator.Remainder (less_than_zero 7) (number 2)) (less_than_zero 1)) ≡ Ok truth.True }
    ensures among { truth_on (with_a 2) one_or_b ≡ Ok truth.Unknown }
    ensures found { truth_on (with_a 1) one_or_b ≡ Ok truth.True }
    ensures not_null { on_plain (unary unary_operator.Not (unary unary_operator.IsNull (user (codes "a")))) ≡ Ok truth.False }
    ensures differs { on_plain is_not_red ≡ Ok truth.Unknown }
    ensures not_same { on_plain (unary unary_operator.Not (equals (user (codes "color")) (constant (property_value.Text (codes "red"))))) ≡ Ok truth.Unknown }
    ensures null { on_plain (unary unary_operator.IsNull (user (codes "color"))) ≡ Ok truth.True }
    ensures overflow { on_plain (equals (binary binary_operator.Divide least (less_than_zero 1)) (number 1)) ≡ Err fault.Overflow }
    ensures no_short_cut { on_plain (binary binary_operator.And (constant (property_value.Bool false)) by_zero) ≡ Err fault.DivideByZero }
    ensures no_system { on_plain (existing (property_name.System (codes "Foo"))) ≡ Err fault.NoSystemProperty }
    ensures system { on_plain (existing (property_name.System (codes "LABEL"))) ≡ Ok truth.False }
{}
