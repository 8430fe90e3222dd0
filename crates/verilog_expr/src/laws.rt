//! The laws of expressions, each a clause of a function that does nothing.

ghost use Rattle.std.specs.Prelude.{◌≡◌, ℕ, suc, ◌<◌, ◌≤◌, ◌^◌, ◌⊎◌, ◌↔◌, Bool, true, false, List, [], length, map, Option, Some, None, slice_get, decimal};
ghost use Rattle.wiring.specs.Wiring.{In, greatest, IsAcyclic};
ghost use Rattle.bits_core.specs.Word.{Word};
ghost use Rattle.hw_model.specs.Types.{Name, HwType, width};
ghost use Rattle.hw_model.specs.Kinds.{Kind};
ghost use Rattle.hw_model.specs.Design.{Ref, Port, Op, result_type};
ghost use Rattle.hw_model.specs.Design.Ref.{result as result_of};
ghost use Rattle.hw_model.specs.Value.{op_value};
ghost use Rattle.hw_model.specs.Flat.{width_of};
ghost use Rattle.hw_model.specs.Sound.{type_in, Fits};
ghost use Rattle.verilog_model.specs.Numerals.{decimal_number, hex_number, is_decimal, is_hex};
ghost use Rattle.verilog_model.specs.Tree.{Expr, Exprs};
ghost use Rattle.verilog_model.specs.Tree.Expr.{joined};
ghost use Rattle.verilog_model.specs.Grammar.{fits};
ghost use Rattle.verilog_model.specs.Expression.{is_signed, own_value, assigned};
ghost use Rattle.verilog_model.specs.Hierarchy.{range_width};
ghost use Rattle.verilog_model.specs.Digits.{hex, high_of};
ghost use Rattle.verilog_expr.specs.Building.{kind_expr};
ghost use Rattle.verilog_expr.specs.Forms.{asks_unsigned, in_position};
ghost use Rattle.verilog_expr.specs.Templates.{template_for};
ghost use Rattle.verilog_expr.specs.declared.form.Form.{Form};
ghost use Rattle.verilog_expr.specs.declared.form.Form.TheVariants.{Same};
ghost use Rattle.verilog_expr.specs.declared.template.Template.TheVariants.{Operands};
ghost use Rattle.verilog_expr.specs.declared.extending.Extending.{Extending};
ghost use Rattle.verilog_expr.specs.declared.extending.Extending.TheVariants.{Off, Given};
ghost use Rattle.verilog_expr.specs.Extensions.{is_given, is_simple};
ghost use Rattle.verilog_expr.specs.Expressions.{op_at, value_width, own_expr, AreExprs, expr_to, IsZeroExtension};
ghost use Rattle.verilog_expr.specs.Spilling.{is_pure, is_constant_kind, AreHeights, height, height_limit, spilled, inner_needs};
ghost use Rattle.verilog_expr.specs.Parentheses.{tight, opened};
ghost use Rattle.verilog_expr.specs.Signs.{is_signed_kind, is_unsigned_position, keeps_signs};
ghost use Rattle.verilog_expr.specs.Values.{value_in, values_in, HasBits, IsBuildable, IsDividedBy, gives_values, is_division, IsWritable, AreNamed, HoldConstants};
ghost use Rattle.verilog_expr.specs.WireRules.{IsComputed, IsCut, WantsWire, heights_without_wire};

/// Does nothing. Its clauses say that numerals say their numbers again: a decimal one of a number below 2 ^ 64, a
/// hexadecimal one of any number, and the range of a width (IEEE 1364-2005, 3.5.1).
pub fn numerals_say_numbers()
    ensures decimals { (n : ℕ) → n < 2 ^ 64 → decimal_number (decimal n) ≡ n }
    ensures decimal_digits { (n : ℕ) → n < 2 ^ 64 → is_decimal (decimal n) ≡ true }
    ensures hexadecimals { (n : ℕ) → hex_number (hex n) ≡ n }
    ensures hexadecimal_digits { (n : ℕ) → is_hex (hex n) ≡ true }
    ensures ranges { (w : ℕ) → 1 ≤ w → w < 2 ^ 64 → range_width (high_of w) ≡ w }
{}

/// Does nothing. Its clauses say what an assignment to a name gives (IEEE 1364-2005, 5.4): of an expression of the name's
/// width its own value, of a shorter one that the context may widen its value there, and of any expression as many bits as
/// the name has.
pub fn assigned_values()
    ensures same { (widths : Name → ℕ) (ρ : Name → Word) (w : ℕ) (e : Expr) → HasBits widths ρ false w e → assigned widths ρ w e ≡ own_value widths ρ e }
    ensures within { (widths : Name → ℕ) (ρ : Name → Word) (given : Bool) (w : ℕ) (e : Expr) → HasBits widths ρ given w e
        → assigned widths ρ w e ≡ value_in widths ρ w e }
    ensures long { (widths : Name → ℕ) (ρ : Name → Word) (w : ℕ) (e : Expr) → length (assigned widths ρ w e) ≡ w }
{}

/// Does nothing. Its clauses say that the expression of an operation has in a context of the width of its result the
/// operation's value, whatever the expressions of its operands are: each counts by its own sign and by its value in a
/// context of its type's width. Where that context gives an operand its width, the operand may be shorter.
pub fn built_expressions()
    ensures bits { (widths : Name → ℕ) (ρ : Name → Word) (given : Bool) (kind : Kind) (ts : List HwType) (xs : List (Option HwType)) (t : HwType) (k divisor : ℕ)
        (es : List Expr) → Fits kind ts xs t k → IsBuildable widths ρ given kind xs t es
        → HasBits widths ρ given (width t) (kind_expr kind (width t) (map width_of xs) divisor es) }
    ensures worth { (widths : Name → ℕ) (ρ : Name → Word) (given : Bool) (kind : Kind) (ts : List HwType) (xs : List (Option HwType)) (t : HwType) (k divisor : ℕ)
        (es : List Expr) → Fits kind ts xs t k → IsBuildable widths ρ given kind xs t es → IsDividedBy widths ρ kind (width t) divisor es
        → value_in widths ρ (width t) (kind_expr kind (width t) (map width_of xs) divisor es) ≡ op_value kind ts t k (values_in widths ρ (map width_of xs) es) }
{}

/// Does nothing. Its clauses say of the expressions of a body, however zero extensions are written: each has the width of its
/// value, and where the context gives that at most as many bits (`bits`); so has the expression of an operation
/// (`own_bits`). Written with all zeros it has the value that the operation gives from those of its operands' expressions
/// (`worth`), where a division asks that the names of constants hold them; and what has neither type nor name has no bits
/// (`absent`).
pub fn expressions_of_a_body()
    ensures bits { (named : Ref → Option Name) (ports : List Port) (os : List Op) (ex : Extending → Ref → Expr) (widths : Name → ℕ) (ρ : Name → Word)
        → IsWritable named ports os → IsAcyclic (inner_needs os) → AreExprs named ports os ex → AreNamed named ports os widths ρ
        → (x : Extending) (r : Ref) → HasBits widths ρ (is_given x) (value_width ports os r) (ex x r) }
    ensures own_bits { (named : Ref → Option Name) (ports : List Port) (os : List Op) (ex : Extending → Ref → Expr) (widths : Name → ℕ) (ρ : Name → Word)
        → IsWritable named ports os → IsAcyclic (inner_needs os) → AreExprs named ports os ex → AreNamed named ports os widths ρ
        → (x : Extending) (i k : ℕ) (o : Op) (t : HwType) → slice_get os i ≡ Some o → gives_values o ≡ true → result_type o k ≡ Some t
        → HasBits widths ρ (is_given x) (width t) (own_expr named ports os ex x (result_of i k)) }
    ensures worth { (named : Ref → Option Name) (ports : List Port) (os : List Op) (ex : Extending → Ref → Expr) (widths : Name → ℕ) (ρ : Name → Word)
        → IsWritable named ports os → IsAcyclic (inner_needs os) → AreExprs named ports os ex → AreNamed named ports os widths ρ
        → (i k : ℕ) (o : Op) (t : HwType) → slice_get os i ≡ Some o → gives_values o ≡ true → result_type o k ≡ Some t
        → (is_division o.kind ≡ true → HoldConstants named os ρ)
        → own_value widths ρ (own_expr named ports os ex Off (result_of i k)) ≡ op_value o.kind o.types t k (map (λ (x : Ref). own_value widths ρ (ex Off x)) o.operands) }
    ensures absent { (named : Ref → Option Name) (ports : List Port) (os : List Op) (ex : Extending → Ref → Expr) (widths : Name → ℕ) (ρ : Name → Word)
        → AreExprs named ports os ex → (r : Ref) → type_in ports os r ≡ None → named r ≡ None → own_value widths ρ (ex Off r) ≡ [] }
{}

/// Does nothing. Its clauses say that zeros that are left out change no value, where the names of constants hold them: what is
/// assigned to a name of a value's width is the value with all zeros written (`assigned`), and so is what is assigned to
/// an operation's own name (`own_assigned`), and what stands by itself (`asked`).
pub fn zeros_change_nothing()
    ensures assigned { (named : Ref → Option Name) (ports : List Port) (os : List Op) (ex : Extending → Ref → Expr) (widths : Name → ℕ) (ρ : Name → Word)
        → IsWritable named ports os → IsAcyclic (inner_needs os) → AreExprs named ports os ex → AreNamed named ports os widths ρ
        → HoldConstants named os ρ → (x : Extending) (r : Ref) → assigned widths ρ (value_width ports os r) (ex x r) ≡ own_value widths ρ (ex Off r) }
    ensures own_assigned { (named : Ref → Option Name) (ports : List Port) (os : List Op) (ex : Extending → Ref → Expr) (widths : Name → ℕ) (ρ : Name → Word)
        → IsWritable named ports os → IsAcyclic (inner_needs os) → AreExprs named ports os ex → AreNamed named ports os widths ρ
        → (x : Extending) (i k : ℕ) (o : Op) (t : HwType) → slice_get os i ≡ Some o → gives_values o ≡ true → result_type o k ≡ Some t
        → (is_constant_kind o.kind ≡ false → HoldConstants named os ρ)
        → assigned widths ρ (width t) (own_expr named ports os ex x (result_of i k)) ≡ own_value widths ρ (own_expr named ports os ex Off (result_of i k)) }
    ensures asked { (named : Ref → Option Name) (ports : List Port) (os : List Op) (ex : Extending → Ref → Expr) (widths : Name → ℕ) (ρ : Name → Word)
        → IsWritable named ports os → IsAcyclic (inner_needs os) → AreExprs named ports os ex → AreNamed named ports os widths ρ
        → HoldConstants named os ρ → (x : Extending) (r : Ref) → is_given x ≡ false → own_value widths ρ (ex x r) ≡ own_value widths ρ (ex Off r) }
{}

/// Does nothing. Its clauses say how a zero extension is written that has no name: as its operand, a name or a literal, where
/// the context gives the full width (`bare`), and in braces everywhere else (`braced`). What is a name or a literal with all
/// zeros written is written in one way (`one_way`).
pub fn zero_extensions_are_written()
    ensures bare { (named : Ref → Option Name) (ports : List Port) (os : List Op) (ex : Extending → Ref → Expr) → AreExprs named ports os ex
        → (r b : Ref) → named r ≡ None → IsZeroExtension ports os ex r b → ex Given r ≡ ex Off b }
    ensures braced { (named : Ref → Option Name) (ports : List Port) (os : List Op) (ex : Extending → Ref → Expr) → AreExprs named ports os ex
        → (r b : Ref) → named r ≡ None → IsZeroExtension ports os ex r b → (x : Extending) → is_given x ≡ false → (es : Exprs) × (ex x r ≡ joined es) }
    ensures one_way { (named : Ref → Option Name) (ports : List Port) (os : List Op) (ex : Extending → Ref → Expr) → IsWritable named ports os
        → IsAcyclic (inner_needs os) → AreExprs named ports os ex → (r : Ref) → is_simple (ex Off r) ≡ true → (x : Extending) → ex x r ≡ ex Off r }
{}

/// Does nothing. Its clause says that the heights of a body's values are each from those of its operation's operands,
/// where no value depends on itself.
pub fn heights_hold()
    ensures { (ports : List Port) (os : List Op) → IsAcyclic (inner_needs os) → AreHeights ports os (height ports os) }
{}

/// Does nothing. Its clause says that the expressions down to a depth of one more than the limit of heights are those of
/// the body: each is made from those of its operation's operands.
pub fn expressions_hold()
    ensures { (named : Ref → Option Name) (ports : List Port) (os : List Op) → IsWritable named ports os → IsAcyclic (inner_needs os)
        → AreExprs named ports os (λ (x : Extending) (r : Ref). expr_to named ports os (suc height_limit) x r) }
{}

/// Does nothing. Its clauses say that expressions keep the precedence and association of the operators (IEEE 1364-2005,
/// 5.1.2): that of an operation where those of its operands do, each expression of a body, and each down to a depth.
pub fn expressions_fit()
    ensures kind_expr { (kind : Kind) (w : ℕ) (ws : List ℕ) (divisor : ℕ) (es : List Expr) → ((e : Expr) → In e es → fits e ≡ true)
        → fits (kind_expr kind w ws divisor es) ≡ true }
    ensures body { (named : Ref → Option Name) (ports : List Port) (os : List Op) (ex : Extending → Ref → Expr) → IsWritable named ports os
        → IsAcyclic (inner_needs os) → AreExprs named ports os ex → (x : Extending) (r : Ref) → fits (ex x r) ≡ true }
    ensures depth { (named : Ref → Option Name) (ports : List Port) (os : List Op) (n : ℕ) (x : Extending) (r : Ref) → fits (expr_to named ports os n x r) ≡ true }
    ensures own { (named : Ref → Option Name) (ports : List Port) (os : List Op) (ex : Extending → Ref → Expr) → ((x : Extending) (r : Ref) → fits (ex x r) ≡ true)
        → (x : Extending) (r : Ref) → fits (own_expr named ports os ex x r) ≡ true }
{}

/// Does nothing. Its clauses say that no parentheses of an expression can be left out (IEEE 1364-2005, 5.1.2): where any
/// one pair is taken from an expression that is tight, what is left does not keep the precedence and association of the
/// operators (`left_out`). The expression of an operation is tight where those of its operands are, and so are each
/// expression of a body, each down to a depth, and what is assigned to a name, whatever names the values have.
pub fn parentheses_are_needed()
    ensures left_out { (e x : Expr) → tight e ≡ true → In x (opened e) → fits x ≡ false }
    ensures kind_expr { (kind : Kind) (w : ℕ) (ws : List ℕ) (divisor : ℕ) (es : List Expr) → ((e : Expr) → In e es → tight e ≡ true)
        → tight (kind_expr kind w ws divisor es) ≡ true }
    ensures body { (named : Ref → Option Name) (ports : List Port) (os : List Op) (ex : Extending → Ref → Expr) → IsWritable named ports os
        → IsAcyclic (inner_needs os) → AreExprs named ports os ex → (x : Extending) (r : Ref) → tight (ex x r) ≡ true }
    ensures depth { (named : Ref → Option Name) (ports : List Port) (os : List Op) (n : ℕ) (x : Extending) (r : Ref) → tight (expr_to named ports os n x r) ≡ true }
    ensures own { (named : Ref → Option Name) (ports : List Port) (os : List Op) (ex : Extending → Ref → Expr) → ((x : Extending) (r : Ref) → tight (ex x r) ≡ true)
        → (x : Extending) (r : Ref) → tight (own_expr named ports os ex x r) ≡ true }
{}

/// Does nothing. Its clauses say that each expression stands by its own sign (IEEE 1364-2005, 5.5). An unsigned one is asked
/// for in the places of `is_unsigned_position` (`asked`), unless an operand stands as it is, and there what stands is unsigned
/// (`positions`); only a signed division or shift is signed, or what stands as an operand
/// does (`signed`, `kinds`). What stands round an operand changes its sign nowhere: in the expression of an operation where
/// it does so in none of its operands' expressions, in each expression of a body, each down to a depth, and in what is
/// assigned to a name, whatever names the values have.
pub fn signs_are_kept()
    ensures asked { (kind : Kind) (w v divisor n i : ℕ) (f : Form) → template_for kind w v divisor n ≡ Operands f → (f ≡ Same → ⊥)
        → asks_unsigned f i ≡ is_unsigned_position kind i }
    ensures positions { (l : ℕ) (e : Expr) → is_signed (in_position true l e) ≡ false }
    ensures kinds { (kind : Kind) (w : ℕ) (ws : List ℕ) (divisor : ℕ) (es : List Expr) → is_signed_kind kind ≡ true → length es ≡ 2
        → is_signed (kind_expr kind w ws divisor es) ≡ true }
    ensures signed { (kind : Kind) (w : ℕ) (ws : List ℕ) (divisor : ℕ) (es : List Expr) → is_signed (kind_expr kind w ws divisor es) ≡ true
        → (is_signed_kind kind ≡ true) ⊎ In (kind_expr kind w ws divisor es) es }
    ensures kind_expr { (kind : Kind) (w : ℕ) (ws : List ℕ) (divisor : ℕ) (es : List Expr) → ((e : Expr) → In e es → keeps_signs e ≡ true)
        → keeps_signs (kind_expr kind w ws divisor es) ≡ true }
    ensures body { (named : Ref → Option Name) (ports : List Port) (os : List Op) (ex : Extending → Ref → Expr) → IsWritable named ports os
        → IsAcyclic (inner_needs os) → AreExprs named ports os ex → (x : Extending) (r : Ref) → keeps_signs (ex x r) ≡ true }
    ensures depth { (named : Ref → Option Name) (ports : List Port) (os : List Op) (n : ℕ) (x : Extending) (r : Ref) → keeps_signs (expr_to named ports os n x r) ≡ true }
    ensures own { (named : Ref → Option Name) (ports : List Port) (os : List Op) (ex : Extending → Ref → Expr) → ((x : Extending) (r : Ref) → keeps_signs (ex x r) ≡ true)
        → (x : Extending) (r : Ref) → keeps_signs (own_expr named ports os ex x r) ≡ true }
{}

/// Does nothing. Its clauses say when a value has a wire. One that is computed by a pure operation other than a constant has
/// one exactly where it has two uses or more, or is an operand of a narrower extract or of an instance, or a name is wanted
/// for it, or it has the limit of heights (`computed`); a constant exactly where it is an operand of a narrower extract
/// (`constants`); nothing else has one (`others`). A value that is not computed has height 0 (`names`), and one that is has
/// one more than the highest of its operands without a wire (`heights`), at most the limit (`limit`).
pub fn wires_stand_by_rule()
    ensures computed { (ports : List Port) (os : List Op) → IsAcyclic (inner_needs os) → (r : Ref) (o : Op) → IsComputed os r o
        → (spilled ports os r ≡ true) ↔ WantsWire ports os r o }
    ensures constants { (ports : List Port) (os : List Op) (r : Ref) (o : Op) → op_at os r ≡ Some o → is_constant_kind o.kind ≡ true
        → (spilled ports os r ≡ true) ↔ IsCut ports os r }
    ensures others { (ports : List Port) (os : List Op) (r : Ref) → spilled ports os r ≡ true → (o : Op) × (op_at os r ≡ Some o) × (is_pure o ≡ true) }
    ensures names { (ports : List Port) (os : List Op) → IsAcyclic (inner_needs os) → (r : Ref) → ((o : Op) → IsComputed os r o → ⊥) → height ports os r ≡ 0 }
    ensures heights { (ports : List Port) (os : List Op) → IsAcyclic (inner_needs os) → (r : Ref) (o : Op) → IsComputed os r o
        → height ports os r ≡ suc (greatest (heights_without_wire ports os o.operands)) }
    ensures limit { (ports : List Port) (os : List Op) → IsAcyclic (inner_needs os) → (r : Ref) → height ports os r ≤ height_limit }
{}
