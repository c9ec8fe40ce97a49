//! What is known of conditions, for those who build on them.

ghost use Rattle.std.specs.Prelude.{◌≡◌, Some};
ghost use Rattle.c_conditions.specs.Conditions.{IsConditionalExpression, conditional_expression};
ghost use Rattle.c_conditions.specs.Values.{IsWidest, value_of};
ghost use Rattle.c_conditions.specs.declared.value.Value.{Value};
ghost use Rattle.c_syntax.specs.Tree.{Expression};
ghost use Rattle.c_syntax.specs.Words.{Words};

/// Words have at most one conditional expression of at most 200 levels, and that is the one that is read.
pub fn conditions_have_one_tree()
    ensures sound { (i : Words) (e : Expression) → conditional_expression i ≡ Some e → IsConditionalExpression i e }
    ensures complete { (i : Words) (e : Expression) → IsConditionalExpression i e → conditional_expression i ≡ Some e }
{}

/// Each value has the type `long` or `unsigned long`.
pub fn values_have_the_widest_types()
    ensures { (e : Expression) (v : Value) → value_of e ≡ Some v → IsWidest v.integer_type }
{}
