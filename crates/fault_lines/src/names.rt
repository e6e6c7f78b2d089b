//! The names of limits and rules, as they are written.
ghost use Rattle.std.specs.Prelude.{◌≡◌};
ghost use Rattle.rewriting.specs.Conditions.{condition_name};
ghost use Rattle.fault_lines.specs.Names.{
  alloc_limit_name,
  nest_rule_name,
  quantity_name,
  step_limit_name,
  type_limit_name,
};

use buffer_allocation::buffers::AllocLimit;
use lift_reader::refusal::Quantity;
use lowered_tree::rule::NestRule;
use pattern_types::TypeLimit;
use rewriting::Condition;
use strategy_script::StepLimit;

pub fn quantity_name(which: Quantity) -> &'static [u8]
    ensures { result.now ≡ quantity_name which }
{
    match which {
        Quantity::Sizes => b"sizes".as_slice(),
        Quantity::Inputs => b"inputs".as_slice(),
        Quantity::Nodes => b"nodes".as_slice(),
    }
}

pub fn type_limit_name(which: TypeLimit) -> &'static [u8]
    ensures { result.now ≡ type_limit_name which }
{
    match which {
        TypeLimit::Arrays => b"arrays".as_slice(),
        TypeLimit::Components => b"components".as_slice(),
        TypeLimit::Terms => b"terms".as_slice(),
        TypeLimit::Degree => b"degree".as_slice(),
        TypeLimit::Coefficient => b"coefficient".as_slice(),
        TypeLimit::Scalars => b"scalars".as_slice(),
    }
}

pub fn condition_name(condition: Condition) -> &'static [u8]
    ensures { result.now ≡ condition_name condition }
{
    condition.name().as_bytes()
}

pub fn step_limit_name(which: StepLimit) -> &'static [u8]
    ensures { result.now ≡ step_limit_name which }
{
    match which {
        StepLimit::Nodes => b"nodes".as_slice(),
        StepLimit::Depth => b"depth".as_slice(),
        StepLimit::Types(which) => type_limit_name(which),
    }
}

pub fn nest_rule_name(rule: NestRule) -> &'static [u8]
    ensures { result.now ≡ nest_rule_name rule }
{
    match rule {
        NestRule::N1 => b"N1".as_slice(),
        NestRule::N2 => b"N2".as_slice(),
        NestRule::N3 => b"N3".as_slice(),
        NestRule::N4 => b"N4".as_slice(),
        NestRule::N5 => b"N5".as_slice(),
        NestRule::N6 => b"N6".as_slice(),
        NestRule::N7 => b"N7".as_slice(),
        NestRule::N8 => b"N8".as_slice(),
        NestRule::N9 => b"N9".as_slice(),
        NestRule::N10 => b"N10".as_slice(),
        NestRule::N11 => b"N11".as_slice(),
        NestRule::N12 => b"N12".as_slice(),
        NestRule::N13 => b"N13".as_slice(),
        NestRule::N14 => b"N14".as_slice(),
        NestRule::N15 => b"N15".as_slice(),
    }
}

pub fn alloc_limit_name(which: AllocLimit) -> &'static [u8]
    ensures { result.now ≡ alloc_limit_name which }
{
    match which {
        AllocLimit::Layouts => b"layouts".as_slice(),
        AllocLimit::Local => b"local".as_slice(),
        AllocLimit::Private => b"private".as_slice(),
    }
}
