//! Whether two kinds are one: exactly where their views are.
ghost use Rattle.std.specs.Prelude.{◌≡◌, map};
ghost use Rattle.std.specs.Cmp.Lexicographic.{pointwise};
ghost use Rattle.hw_model.specs.Design.{same_name};
ghost use Rattle.hw_model.specs.KindViews.{kind_of, predicate_of, reset_of, integer_of, literal_of, literals_of, literals_in, instance_of};
ghost use Rattle.hw_model.specs.SameKind.{predicate_number, same_opcode, same_literal, same_literals, same_optional_name, same_instance, is_icmp, is_extract, is_constant, is_aggregate_constant, is_struct_extract, is_struct_inject, is_instance, is_register, is_async_firreg};

use crate::kinds::{Instance, Integer, Literal, LiteralList, OpKind, Predicate, Reset};
use io_edge::byte_text::Text;
use opcode::listed::Listed;

impl PartialEq for Predicate {
    ghost use Rattle.hw_model.specs.KindViews.{predicate_of};
    ghost use Rattle.hw_model.specs.SameKind.{same_predicate};
    ghost use Rattle.hw_model.specs.KindsApart.{predicate_laws};

    ghost eq = { λ a b. same_predicate (predicate_of a) (predicate_of b) };

    ghost laws = { predicate_laws };

    fn eq(&self, other: &Predicate) -> bool {
        predicate_number(*self) == predicate_number(*other)
    }
}

impl Eq for Predicate {
    ghost use Rattle.hw_model.specs.KindsApart.{predicate_equivalence};

    ghost laws = { predicate_equivalence };
}

impl PartialEq for Reset {
    ghost use Rattle.hw_model.specs.KindViews.{reset_of};
    ghost use Rattle.hw_model.specs.SameKind.{same_reset};
    ghost use Rattle.hw_model.specs.KindsApart.{reset_laws};

    ghost eq = { λ a b. same_reset (reset_of a) (reset_of b) };

    ghost laws = { reset_laws };

    fn eq(&self, other: &Reset) -> bool {
        match (self, other) {
            (Reset::No, Reset::No) | (Reset::Sync, Reset::Sync) => true,
            (Reset::No, Reset::Sync) | (Reset::Sync, Reset::No) => false,
        }
    }
}

impl Eq for Reset {
    ghost use Rattle.hw_model.specs.KindsApart.{reset_equivalence};

    ghost laws = { reset_equivalence };
}

impl PartialEq for Integer {
    ghost use Rattle.hw_model.specs.KindViews.{integer_of};
    ghost use Rattle.hw_model.specs.SameKind.{same_integer};
    ghost use Rattle.hw_model.specs.KindsApart.{integer_laws};

    ghost eq = { λ a b. same_integer (integer_of a) (integer_of b) };

    ghost laws = { integer_laws };

    fn eq(&self, other: &Integer) -> bool {
        match (self, other) {
            (Integer::NonNegative(m), Integer::NonNegative(n)) => m == n,
            (Integer::Negative(m), Integer::Negative(n)) => m == n,
            (Integer::NonNegative(_), Integer::Negative(_)) => false,
            (Integer::Negative(_), Integer::NonNegative(_)) => false,
        }
    }
}

impl Eq for Integer {
    ghost use Rattle.hw_model.specs.KindsApart.{integer_equivalence};

    ghost laws = { integer_equivalence };
}

impl PartialEq for LiteralList {
    ghost use Rattle.hw_model.specs.KindViews.{literals_in};
    ghost use Rattle.hw_model.specs.SameKind.{same_literals};
    ghost use Rattle.hw_model.specs.KindsApart.{literals_laws};

    ghost eq = { λ a b. same_literals (literals_in a) (literals_in b) };

    ghost laws = { literals_laws };

    fn eq(&self, other: &LiteralList) -> bool {
        same_lists(&self.literals, &other.literals)
    }
}

impl Eq for LiteralList {
    ghost use Rattle.hw_model.specs.KindsApart.{literals_equivalence};

    ghost laws = { literals_equivalence };
}

impl PartialEq for OpKind {
    ghost use Rattle.hw_model.specs.KindViews.{kind_of};
    ghost use Rattle.hw_model.specs.SameKind.{same_kind};
    ghost use Rattle.hw_model.specs.KindsApart.{kind_laws};

    ghost eq = { λ a b. same_kind (kind_of a) (kind_of b) };

    ghost laws = { kind_laws };

    fn eq(&self, other: &OpKind) -> bool {
        match self {
            OpKind::Icmp(predicate) => is_icmp(*predicate, other),
            OpKind::Extract(low) => is_extract(*low, other),
            OpKind::Constant(value) => is_constant(*value, other),
            OpKind::AggregateConstant(list) => is_aggregate_constant(list, other),
            OpKind::StructExtract(name) => is_struct_extract(name, other),
            OpKind::StructInject(name) => is_struct_inject(name, other),
            OpKind::Instance(instance) => is_instance(instance, other),
            OpKind::CompReg(reset) | OpKind::CompRegCe(reset) | OpKind::FirReg(reset) => {
                is_register(self.listed(), *reset, other)
            }
            OpKind::AsyncFirReg => is_async_firreg(other),
            _ => same_opcode(self.listed(), other.listed()),
        }
    }
}

impl Eq for OpKind {
    ghost use Rattle.hw_model.specs.KindsApart.{kind_equivalence};

    ghost laws = { kind_equivalence };
}

// the location of a predicate in a row of all
fn predicate_number(predicate: Predicate) -> u32
    ensures { result ≡ predicate_number (predicate_of predicate) }
{
    match predicate {
        Predicate::Eq => 0,
        Predicate::Ne => 1,
        Predicate::Slt => 2,
        Predicate::Sle => 3,
        Predicate::Sgt => 4,
        Predicate::Sge => 5,
        Predicate::Ult => 6,
        Predicate::Ule => 7,
        Predicate::Ugt => 8,
        Predicate::Uge => 9,
        Predicate::Ceq => 10,
        Predicate::Cne => 11,
        Predicate::Weq => 12,
        Predicate::Wne => 13,
    }
}

// whether two opcodes are one: whether they have one name
fn same_opcode(a: Listed, b: Listed) -> bool
    ensures { result ≡ same_opcode a b }
{
    a.name() == b.name()
}

#[cycle(same_literal)]
fn same_literal(a: &Literal, b: &Literal) -> bool
    ensures { result ≡ same_literal (literal_of a.now) (literal_of b.now) }
{
    match a {
        Literal::Leaf(value, ty) => match b {
            Literal::Leaf(other_value, other_ty) => value == other_value && ty == other_ty,
            Literal::Parts(_) => false,
        },
        Literal::Parts(list) => match b {
            Literal::Parts(other) => same_lists(&list.literals, &other.literals),
            Literal::Leaf(..) => false,
        },
    }
}

#[cycle(same_literal)]
fn same_lists(ks: &[Literal], ls: &[Literal]) -> bool
    ensures { result ≡ same_literals (literals_of (map literal_of ks.now)) (literals_of (map literal_of ls.now)) }
{
    if ks.len() != ls.len() {
        return false;
    }
    for (k, l) in ks.iter().zip(ls) {
        if !same_literal(k, l) {
            return false;
        }
    }
    true
}

fn same_option(a: &Option<Text>, b: &Option<Text>) -> bool
    ensures { result ≡ same_optional_name a.now b.now }
{
    match (a, b) {
        (None, None) => true,
        (Some(f), Some(g)) => f == g,
        (None, Some(_)) | (Some(_), None) => false,
    }
}

fn same_texts(a: &[Text], b: &[Text]) -> bool
    ensures { result ≡ pointwise same_name a.now b.now }
{
    a == b
}

fn same_instance(a: &Instance, b: &Instance) -> bool
    ensures { result ≡ same_instance (instance_of a.now) (instance_of b.now) }
{
    a.name == b.name
        && (same_option(&a.inner_symbol, &b.inner_symbol)
            && (a.symbol == b.symbol
                && (same_texts(&a.inputs, &b.inputs) && same_texts(&a.outputs, &b.outputs))))
}

fn is_icmp(predicate: Predicate, kind: &OpKind) -> bool
    ensures { result ≡ is_icmp (predicate_of predicate) (kind_of kind.now) }
{
    match kind {
        OpKind::Icmp(other) => predicate == *other,
        _ => false,
    }
}

fn is_extract(low: u32, kind: &OpKind) -> bool
    ensures { result ≡ is_extract low (kind_of kind.now) }
{
    match kind {
        OpKind::Extract(other) => low == *other,
        _ => false,
    }
}

fn is_constant(value: Integer, kind: &OpKind) -> bool
    ensures { result ≡ is_constant (integer_of value) (kind_of kind.now) }
{
    match kind {
        OpKind::Constant(other) => value == *other,
        _ => false,
    }
}

fn is_aggregate_constant(list: &LiteralList, kind: &OpKind) -> bool
    ensures { result ≡ is_aggregate_constant (literals_in list.now) (kind_of kind.now) }
{
    match kind {
        OpKind::AggregateConstant(other) => list == other,
        _ => false,
    }
}

fn is_struct_extract(name: &Text, kind: &OpKind) -> bool
    ensures { result ≡ is_struct_extract name.now (kind_of kind.now) }
{
    match kind {
        OpKind::StructExtract(other) => name == other,
        _ => false,
    }
}

fn is_struct_inject(name: &Text, kind: &OpKind) -> bool
    ensures { result ≡ is_struct_inject name.now (kind_of kind.now) }
{
    match kind {
        OpKind::StructInject(other) => name == other,
        _ => false,
    }
}

fn is_instance(instance: &Instance, kind: &OpKind) -> bool
    ensures { result ≡ is_instance (instance_of instance.now) (kind_of kind.now) }
{
    match kind {
        OpKind::Instance(other) => same_instance(instance, other),
        _ => false,
    }
}

fn is_async_firreg(kind: &OpKind) -> bool
    ensures { result ≡ is_async_firreg (kind_of kind.now) }
{
    match kind {
        OpKind::AsyncFirReg => true,
        _ => false,
    }
}

// whether a kind is the register of an opcode, with a reset
fn is_register(own: Listed, reset: Reset, kind: &OpKind) -> bool
    ensures { result ≡ is_register own (reset_of reset) (kind_of kind.now) }
{
    match kind {
        OpKind::CompReg(other) | OpKind::CompRegCe(other) | OpKind::FirReg(other) => {
            same_opcode(own, kind.listed()) && reset == *other
        }
        _ => false,
    }
}
