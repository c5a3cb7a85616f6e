//! The operators on the parts of two constraints.

ghost use Rattle.std.specs.Prelude.{◌≡◌, ◌≤◌, Some, None, ◌++◌, List, if◌then◌else◌, IfOk, length};
ghost use Rattle.asl_cons.specs.Arithmetic.{limited, with_each, by_pairs, each_part, modulo_part};
ghost use Rattle.asl_cons.specs.Operator.{part_by, onto, left_over};
ghost use Rattle.asl_cons.specs.declared.Part.{Part};

use crate::Part;
use crate::parts::{
    difference_part, modulo_part, product_part, quotient_part, shifted_down_part, shifted_up_part,
    sum_part,
};
use std::alloc::{AllocError, Global};

/// The most parts of a constraint.
pub const MOST_PARTS: usize = 64;

// The operators that take each pair of parts.
#[derive(Clone, Copy)]
pub(crate) enum Operator {
    Add,
    Sub,
    Mul,
    DivFloor,
    Shl,
    Shr,
}

// What the operator makes of two parts.
fn on_parts(alloc: Global, op: Operator, p: &Part, q: &Part) -> Result<Option<Part>, AllocError>
    ensures { IfOk result (λ r. r ≡ part_by op p.now q.now) }
{
    match op {
        Operator::Add => sum_part(alloc, p, q),
        Operator::Sub => difference_part(alloc, p, q),
        Operator::Mul => product_part(alloc, p, q),
        Operator::DivFloor => Ok(quotient_part(p, q)),
        Operator::Shl => Ok(shifted_up_part(p, q)),
        Operator::Shr => Ok(shifted_down_part(p, q)),
    }
}

// Appends what `p` and each of `qs` give to `made`; `false` where a pair gives no part.
fn add_each(
    alloc: Global,
    op: Operator,
    made: &mut Vec<Part>,
    p: &Part,
    qs: &[Part],
) -> Result<bool, AllocError>
    ensures { IfOk result (λ b. onto made.old.items (with_each (part_by op) p.now qs.now) ≡ left_over b made.new.items) }
{
    for q in qs {
        let Some(r) = on_parts(alloc, op, p, q)? else {
            return Ok(false);
        };
        made.push(r)?;
    }
    Ok(true)
}

// What all pairs of parts give, left part first. The result is empty, that is, the whole constraint, where a pair gives no
// part or there are too many.
pub(crate) fn by_pairs(
    alloc: Global,
    op: Operator,
    ps: &[Part],
    qs: &[Part],
) -> Result<Vec<Part>, AllocError>
    requires left { length ps.now ≤ 64 }
    requires right { length qs.now ≤ 64 }
    ensures { IfOk result (λ v. v.items ≡ by_pairs (part_by op) ps.now qs.now) }
{
    let mut made = Vec::new(alloc);
    if ps.len() * qs.len() > MOST_PARTS {
        return Ok(made);
    }
    for p in ps {
        if !add_each(alloc, op, &mut made, p, qs)? {
            return Ok(Vec::new(alloc));
        }
    }
    Ok(made)
}

// What `MOD` gives for each part of the right operand.
pub(crate) fn by_moduli(alloc: Global, qs: &[Part]) -> Result<Vec<Part>, AllocError>
    requires { length qs.now ≤ 64 }
    ensures { IfOk result (λ v. v.items ≡ limited (each_part modulo_part qs.now)) }
{
    let mut made = Vec::new(alloc);
    for q in qs {
        let Some(r) = modulo_part(q) else {
            return Ok(Vec::new(alloc));
        };
        made.push(r)?;
    }
    Ok(made)
}
