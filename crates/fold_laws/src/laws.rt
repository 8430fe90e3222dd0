//! The laws of folds, each a clause of a function that does nothing.

ghost use Rattle.fold_laws.specs.ConstantOperands.{fold_two_constants, fold_constant_last};
ghost use Rattle.fold_laws.specs.Edits.{fold_by};
ghost use Rattle.fold_laws.specs.Evaluated.{fold_evaluated};
ghost use Rattle.fold_laws.specs.Fewer.{fold_add_zero, fold_or_zero, fold_xor_zero, fold_and_ones, fold_mul_one, fold_repeated, fold_xor_pair};
ghost use Rattle.fold_laws.specs.Fold.{FoldLaw};
ghost use Rattle.fold_laws.specs.Nested.{fold_nested_operand, fold_extract_extract, fold_nested_concat};
ghost use Rattle.fold_laws.specs.Numbers.{fold_sub_self, fold_xor_self, fold_shift_out, fold_mod_one, fold_icmp_self};
ghost use Rattle.fold_laws.specs.Parts.{fold_struct_part, fold_extract_part, fold_array_part};
ghost use Rattle.fold_laws.specs.Standing.{fold_single_operand, fold_and_zero, fold_or_ones, fold_mul_zero, fold_sub_zero, fold_shift_zero, fold_div_one, fold_mux_constant, fold_mux_same, fold_mux_bool, fold_full_extract, fold_trivial_concat, fold_trivial_replicate, fold_trivial_bitcast};
ghost use Rattle.fold_laws.specs.Table.{first_pattern, patterns, AllFold};
ghost use Rattle.fold_laws.specs.Unused.{fold_unused};

/// Does nothing. Its clause says that it is a fold where an operation without uses goes.
pub fn unused_operations_go()
    ensures { FoldLaw (fold_by fold_unused) }
{}

/// Does nothing. Its clauses say of each pattern by which an operand stands for the result of an operation, which goes, that
/// it is a fold.
pub fn operands_stand()
    ensures single_operand { FoldLaw (fold_by fold_single_operand) }
    ensures and_zero { FoldLaw (fold_by fold_and_zero) }
    ensures or_ones { FoldLaw (fold_by fold_or_ones) }
    ensures mul_zero { FoldLaw (fold_by fold_mul_zero) }
    ensures sub_zero { FoldLaw (fold_by fold_sub_zero) }
    ensures shift_zero { FoldLaw (fold_by fold_shift_zero) }
    ensures div_one { FoldLaw (fold_by fold_div_one) }
    ensures mux_constant { FoldLaw (fold_by fold_mux_constant) }
    ensures mux_same { FoldLaw (fold_by fold_mux_same) }
    ensures mux_bool { FoldLaw (fold_by fold_mux_bool) }
    ensures full_extract { FoldLaw (fold_by fold_full_extract) }
    ensures trivial_concat { FoldLaw (fold_by fold_trivial_concat) }
    ensures trivial_replicate { FoldLaw (fold_by fold_trivial_replicate) }
    ensures trivial_bitcast { FoldLaw (fold_by fold_trivial_bitcast) }
{}

/// Does nothing. Its clauses say of each pattern by which an operation becomes a constant that it is a fold.
pub fn operations_become_constants()
    ensures value_of_constants { FoldLaw (fold_by fold_evaluated) }
    ensures sub_self { FoldLaw (fold_by fold_sub_self) }
    ensures xor_self { FoldLaw (fold_by fold_xor_self) }
    ensures shift_out { FoldLaw (fold_by fold_shift_out) }
    ensures mod_one { FoldLaw (fold_by fold_mod_one) }
    ensures icmp_self { FoldLaw (fold_by fold_icmp_self) }
{}

/// Does nothing. Its clauses say of each pattern by which an operation of any number of operands loses some of them that it is
/// a fold.
pub fn operands_go()
    ensures add_zero { FoldLaw (fold_by fold_add_zero) }
    ensures or_zero { FoldLaw (fold_by fold_or_zero) }
    ensures xor_zero { FoldLaw (fold_by fold_xor_zero) }
    ensures and_ones { FoldLaw (fold_by fold_and_ones) }
    ensures mul_one { FoldLaw (fold_by fold_mul_one) }
    ensures repeated_operand { FoldLaw (fold_by fold_repeated) }
    ensures xor_pair { FoldLaw (fold_by fold_xor_pair) }
{}

/// Does nothing. Its clauses say of each pattern by which an operand of the operation that made an operand stands for the
/// result that it is a fold.
pub fn parts_stand()
    ensures struct_part { FoldLaw (fold_by fold_struct_part) }
    ensures extract_part { FoldLaw (fold_by fold_extract_part) }
    ensures array_part { FoldLaw (fold_by fold_array_part) }
{}

/// Does nothing. Its clauses say of each pattern by which an operation takes in another one, which made an operand of it and has
/// no other use, that it is a fold.
pub fn nested_operations_join()
    ensures nested_operand { FoldLaw (fold_by fold_nested_operand) }
    ensures extract_extract { FoldLaw (fold_by fold_extract_extract) }
    ensures nested_concat { FoldLaw (fold_by fold_nested_concat) }
{}

/// Does nothing. Its clauses say of each pattern that changes constants among the operands of an operation of any number of them
/// that it is a fold.
pub fn constants_join_and_go_last()
    ensures two_constants { FoldLaw (fold_by fold_two_constants) }
    ensures constant_last { FoldLaw (fold_by fold_constant_last) }
{}

/// Does nothing. Its clauses say of each pattern of the table that it is a fold, and of the first one that matches.
pub fn each_pattern_folds()
    ensures each { AllFold patterns }
    ensures first { FoldLaw (fold_by (first_pattern patterns)) }
{}
