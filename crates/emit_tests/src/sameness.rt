//! Whether two pieces of code are the same.

use kernel_tree::tree::{Expr, Lanes, Stmt};

fn are_expressions(a: &Expr, b: &Expr) -> bool {
    match (a, b) {
        (Expr::Number(m), Expr::Number(n))
        | (Expr::Variable(m), Expr::Variable(n))
        | (Expr::LoopVariable(m), Expr::LoopVariable(n))
        | (Expr::Size(m), Expr::Size(n)) => *m == *n,
        (Expr::Id(m, form), Expr::Id(n, other)) => *m == *n && *form == *other,
        (Expr::Binary(op, p, q), Expr::Binary(other, r, s)) => {
            *op == *other && are_expressions(p, r) && are_expressions(q, s)
        }
        (Expr::Choose(op, p, q, yes, no), Expr::Choose(other, r, s, then, otherwise)) => {
            *op == *other
                && are_expressions(p, r)
                && are_expressions(q, s)
                && are_expressions(yes, then)
                && are_expressions(no, otherwise)
        }
        _ => false,
    }
}

fn are_lanes(a: &Lanes, b: &Lanes) -> bool {
    match (a, b) {
        (Lanes::Vector(m), Lanes::Vector(n)) => *m == *n,
        (Lanes::Spread(x), Lanes::Spread(y)) => are_expressions(x, y),
        (Lanes::Each(op, p, q), Lanes::Each(other, r, s)) => {
            *op == *other && are_lanes(p, r) && are_lanes(q, s)
        }
        _ => false,
    }
}

#[cycle(sameness)]
fn are_statements(a: &Stmt, b: &Stmt) -> bool {
    match (a, b) {
        (Stmt::Assign(m, x), Stmt::Assign(n, y)) => *m == *n && are_expressions(x, y),
        (Stmt::Load(m, array, i), Stmt::Load(n, other, j)) => {
            *m == *n && *array == *other && are_expressions(i, j)
        }
        (Stmt::Store(array, i, x), Stmt::Store(other, j, y)) => {
            *array == *other && are_expressions(i, j) && are_expressions(x, y)
        }
        (Stmt::AssignFour(m, x), Stmt::AssignFour(n, y)) => *m == *n && are_lanes(x, y),
        (Stmt::LoadFour(m, array, i), Stmt::LoadFour(n, other, j)) => {
            *m == *n && *array == *other && are_expressions(i, j)
        }
        (Stmt::StoreFour(array, i, x), Stmt::StoreFour(other, j, y)) => {
            *array == *other && are_expressions(i, j) && are_lanes(x, y)
        }
        (Stmt::Loop(start, x, stride, turn), Stmt::Loop(begin, y, step, body)) => {
            *start == *begin && are_expressions(x, y) && *stride == *step && is_same(turn, body)
        }
        (Stmt::If(start, x, inside), Stmt::If(begin, y, body)) => {
            *start == *begin && are_expressions(x, y) && is_same(inside, body)
        }
        (
            Stmt::Barrier {
                on_local,
                on_global,
            },
            Stmt::Barrier {
                on_local: local,
                on_global: global,
            },
        ) => *on_local == *local && *on_global == *global,
        _ => false,
    }
}

/// Whether the statements are the same, one by one.
#[cycle(sameness)]
pub fn is_same(a: &[Stmt], b: &[Stmt]) -> bool {
    let mut place: usize = 0;
    for statement in a {
        let Some(other) = b.get(place) else {
            return false;
        };
        if !are_statements(statement, other) {
            return false;
        }
        place = place.wrapping_add(1);
    }
    place == b.len()
}
