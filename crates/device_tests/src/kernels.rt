//! Kernels of one output, to be run.

ghost use Rattle.std.specs.Prelude.{◌≡◌, None, IfOk};

use kernel_tree::tree::{Array, Comparison, Dimension, Expr, IdForm, Kernel, Start, Stmt, Stride};
use scalar_ops::op::Op;
use std::alloc::{AllocError, Global};

/// `l0[0u] = 5u; barrier(local); v0 = l0[0u]; barrier(global); o0[0u] = v0;`
pub fn two_barriers(alloc: Global) -> Result<Kernel, AllocError>
    ensures inputs { IfOk result (λ kernel. kernel.inputs ≡ 0) }
    ensures outputs { IfOk result (λ kernel. kernel.outputs ≡ 1) }
    ensures sizes { IfOk result (λ kernel. kernel.sizes ≡ 0) }
    ensures local { IfOk result (λ kernel. kernel.local ≡ None) }
{
    let locals = vec![in alloc; 1]?;
    let body = vec![in alloc;
        Stmt::Store(Array::Local(0), Expr::Number(0), Expr::Number(5)),
        Stmt::Barrier {
            on_local: true,
            on_global: false
        },
        Stmt::Load(0, Array::Local(0), Expr::Number(0)),
        Stmt::Barrier {
            on_local: false,
            on_global: true
        },
        Stmt::Store(Array::Output(0), Expr::Number(0), Expr::Variable(0)),
    ]?;
    Ok(Kernel {
        inputs: 0,
        outputs: 1,
        sizes: 0,
        locals,
        privates: Vec::new(alloc),
        variables: 1,
        vectors: 0,
        local: None,
        body,
    })
}

/// `p0[1u] = 7u; v0 = p0[1u]; o0[0u] = v0; v0 = p0[0u]; o0[1u] = v0;` with two cells of `p0`
pub fn private_cells(alloc: Global) -> Result<Kernel, AllocError>
    ensures inputs { IfOk result (λ kernel. kernel.inputs ≡ 0) }
    ensures outputs { IfOk result (λ kernel. kernel.outputs ≡ 1) }
    ensures sizes { IfOk result (λ kernel. kernel.sizes ≡ 0) }
    ensures local { IfOk result (λ kernel. kernel.local ≡ None) }
{
    let privates = vec![in alloc; 2]?;
    let body = vec![in alloc;
        Stmt::Store(Array::Private(0), Expr::Number(1), Expr::Number(7)),
        Stmt::Load(0, Array::Private(0), Expr::Number(1)),
        Stmt::Store(Array::Output(0), Expr::Number(0), Expr::Variable(0)),
        Stmt::Load(0, Array::Private(0), Expr::Number(0)),
        Stmt::Store(Array::Output(0), Expr::Number(1), Expr::Variable(0)),
    ]?;
    Ok(Kernel {
        inputs: 0,
        outputs: 1,
        sizes: 0,
        locals: Vec::new(alloc),
        privates,
        variables: 1,
        vectors: 0,
        local: None,
        body,
    })
}

/// `for (i0 = local id; i0 < 2u; i0 += local size) { barrier(local); o0[i0] = global size; }`
pub fn barriers_in_a_loop(alloc: Global) -> Result<Kernel, AllocError>
    ensures inputs { IfOk result (λ kernel. kernel.inputs ≡ 0) }
    ensures outputs { IfOk result (λ kernel. kernel.outputs ≡ 1) }
    ensures sizes { IfOk result (λ kernel. kernel.sizes ≡ 0) }
    ensures local { IfOk result (λ kernel. kernel.local ≡ None) }
{
    let inner = vec![in alloc;
        Stmt::Barrier {
            on_local: true,
            on_global: false
        },
        Stmt::Store(
            Array::Output(0),
            Expr::LoopVariable(0),
            Expr::Id(Dimension::X, IdForm::GlobalSize)
        ),
    ]?;
    let body = vec![in alloc;
        Stmt::Loop(
            Start::LocalId(Dimension::X),
            Expr::Number(2),
            Stride::LocalSize(Dimension::X),
            inner
        ),
    ]?;
    Ok(Kernel {
        inputs: 0,
        outputs: 1,
        sizes: 0,
        locals: Vec::new(alloc),
        privates: Vec::new(alloc),
        variables: 0,
        vectors: 0,
        local: None,
        body,
    })
}

/// `o0[0u] = (0u < 1u ? (1u - 2u) : (1u / 0u));`
pub fn chosen(alloc: Global) -> Result<Kernel, AllocError>
    ensures inputs { IfOk result (λ kernel. kernel.inputs ≡ 0) }
    ensures outputs { IfOk result (λ kernel. kernel.outputs ≡ 1) }
    ensures sizes { IfOk result (λ kernel. kernel.sizes ≡ 0) }
    ensures local { IfOk result (λ kernel. kernel.local ≡ None) }
{
    let below = Expr::Binary(
        Op::Sub,
        Box::new(alloc, Expr::Number(1))?,
        Box::new(alloc, Expr::Number(2))?,
    );
    let quotient = Expr::Binary(
        Op::Div,
        Box::new(alloc, Expr::Number(1))?,
        Box::new(alloc, Expr::Number(0))?,
    );
    let value = Expr::Choose(
        Comparison::Less,
        Box::new(alloc, Expr::Number(0))?,
        Box::new(alloc, Expr::Number(1))?,
        Box::new(alloc, below)?,
        Box::new(alloc, quotient)?,
    );
    let body = vec![in alloc; Stmt::Store(Array::Output(0), Expr::Number(0), value)]?;
    Ok(Kernel {
        inputs: 0,
        outputs: 1,
        sizes: 0,
        locals: Vec::new(alloc),
        privates: Vec::new(alloc),
        variables: 0,
        vectors: 0,
        local: None,
        body,
    })
}

/// `o0[0u] = 3u; o0[9u] = (1u / 0u);`
pub fn quotient_by_zero(alloc: Global) -> Result<Kernel, AllocError>
    ensures inputs { IfOk result (λ kernel. kernel.inputs ≡ 0) }
    ensures outputs { IfOk result (λ kernel. kernel.outputs ≡ 1) }
    ensures sizes { IfOk result (λ kernel. kernel.sizes ≡ 0) }
    ensures local { IfOk result (λ kernel. kernel.local ≡ None) }
{
    let value = Expr::Binary(
        Op::Div,
        Box::new(alloc, Expr::Number(1))?,
        Box::new(alloc, Expr::Number(0))?,
    );
    let body = vec![in alloc;
        Stmt::Store(Array::Output(0), Expr::Number(0), Expr::Number(3)),
        Stmt::Store(Array::Output(0), Expr::Number(9), value),
    ]?;
    Ok(Kernel {
        inputs: 0,
        outputs: 1,
        sizes: 0,
        locals: Vec::new(alloc),
        privates: Vec::new(alloc),
        variables: 0,
        vectors: 0,
        local: None,
        body,
    })
}

/// `o0[1u] = 1u;`
pub fn past_the_output(alloc: Global) -> Result<Kernel, AllocError>
    ensures inputs { IfOk result (λ kernel. kernel.inputs ≡ 0) }
    ensures outputs { IfOk result (λ kernel. kernel.outputs ≡ 1) }
    ensures sizes { IfOk result (λ kernel. kernel.sizes ≡ 0) }
    ensures local { IfOk result (λ kernel. kernel.local ≡ None) }
{
    let body = vec![in alloc; Stmt::Store(Array::Output(0), Expr::Number(1), Expr::Number(1))]?;
    Ok(Kernel {
        inputs: 0,
        outputs: 1,
        sizes: 0,
        locals: Vec::new(alloc),
        privates: Vec::new(alloc),
        variables: 0,
        vectors: 0,
        local: None,
        body,
    })
}

/// `l0[0u] = 1u; v0 = l0[1u];` with one cell of `l0`
pub fn past_a_local_array(alloc: Global) -> Result<Kernel, AllocError>
    ensures inputs { IfOk result (λ kernel. kernel.inputs ≡ 0) }
    ensures outputs { IfOk result (λ kernel. kernel.outputs ≡ 1) }
    ensures sizes { IfOk result (λ kernel. kernel.sizes ≡ 0) }
    ensures local { IfOk result (λ kernel. kernel.local ≡ None) }
{
    let locals = vec![in alloc; 1]?;
    let body = vec![in alloc;
        Stmt::Store(Array::Local(0), Expr::Number(0), Expr::Number(1)),
        Stmt::Load(0, Array::Local(0), Expr::Number(1)),
    ]?;
    Ok(Kernel {
        inputs: 0,
        outputs: 1,
        sizes: 0,
        locals,
        privates: Vec::new(alloc),
        variables: 1,
        vectors: 0,
        local: None,
        body,
    })
}

/// `p0[2u] = 1u;` with two cells of `p0`
pub fn past_a_private_array(alloc: Global) -> Result<Kernel, AllocError>
    ensures inputs { IfOk result (λ kernel. kernel.inputs ≡ 0) }
    ensures outputs { IfOk result (λ kernel. kernel.outputs ≡ 1) }
    ensures sizes { IfOk result (λ kernel. kernel.sizes ≡ 0) }
    ensures local { IfOk result (λ kernel. kernel.local ≡ None) }
{
    let privates = vec![in alloc; 2]?;
    let body = vec![in alloc; Stmt::Store(Array::Private(0), Expr::Number(2), Expr::Number(1))]?;
    Ok(Kernel {
        inputs: 0,
        outputs: 1,
        sizes: 0,
        locals: Vec::new(alloc),
        privates,
        variables: 0,
        vectors: 0,
        local: None,
        body,
    })
}

/// `for (i0 = 0u; i0 < s0; i0 += 1u) { v0 = a0[i0]; o0[i0] = (v0 + addend); }`, of one input and
/// one size
pub fn sums(alloc: Global, addend: u32) -> Result<Kernel, AllocError>
    ensures inputs { IfOk result (λ kernel. kernel.inputs ≡ 1) }
    ensures outputs { IfOk result (λ kernel. kernel.outputs ≡ 1) }
    ensures sizes { IfOk result (λ kernel. kernel.sizes ≡ 1) }
    ensures local { IfOk result (λ kernel. kernel.local ≡ None) }
{
    let sum = Expr::Binary(
        Op::Add,
        Box::new(alloc, Expr::Variable(0))?,
        Box::new(alloc, Expr::Number(addend))?,
    );
    let turn = vec![in alloc;
        Stmt::Load(0, Array::Input(0), Expr::LoopVariable(0)),
        Stmt::Store(Array::Output(0), Expr::LoopVariable(0), sum),
    ]?;
    let body = vec![in alloc; Stmt::Loop(Start::Zero, Expr::Size(0), Stride::One, turn)]?;
    Ok(Kernel {
        inputs: 1,
        outputs: 1,
        sizes: 1,
        locals: Vec::new(alloc),
        privates: Vec::new(alloc),
        variables: 1,
        vectors: 0,
        local: None,
        body,
    })
}

/// `for (i0 = 0u; i0 < s0; i0 += 1u) { for (i1 = 0u; i1 < s0; i1 += 1u) { o0[i0] = (i0 + i1); } v0
/// = 7u; }`, of one size
pub fn nested(alloc: Global) -> Result<Kernel, AllocError>
    ensures inputs { IfOk result (λ kernel. kernel.inputs ≡ 0) }
    ensures outputs { IfOk result (λ kernel. kernel.outputs ≡ 1) }
    ensures sizes { IfOk result (λ kernel. kernel.sizes ≡ 1) }
    ensures local { IfOk result (λ kernel. kernel.local ≡ None) }
{
    let sum = Expr::Binary(
        Op::Add,
        Box::new(alloc, Expr::LoopVariable(0))?,
        Box::new(alloc, Expr::LoopVariable(1))?,
    );
    let inner = vec![in alloc; Stmt::Store(Array::Output(0), Expr::LoopVariable(0), sum)]?;
    let outer = vec![in alloc;
        Stmt::Loop(Start::Zero, Expr::Size(0), Stride::One, inner),
        Stmt::Assign(0, Expr::Number(7)),
    ]?;
    let body = vec![in alloc; Stmt::Loop(Start::Zero, Expr::Size(0), Stride::One, outer)]?;
    Ok(Kernel {
        inputs: 0,
        outputs: 1,
        sizes: 1,
        locals: Vec::new(alloc),
        privates: Vec::new(alloc),
        variables: 1,
        vectors: 0,
        local: None,
        body,
    })
}

/// `for (i0 = global id; i0 < s0; i0 += global size) { v0 = a0[i0]; o0[i0] = v0 + 1u; }`
pub fn strided_sums(alloc: Global) -> Result<Kernel, AllocError>
    ensures inputs { IfOk result (λ kernel. kernel.inputs ≡ 1) }
    ensures outputs { IfOk result (λ kernel. kernel.outputs ≡ 1) }
    ensures sizes { IfOk result (λ kernel. kernel.sizes ≡ 1) }
    ensures local { IfOk result (λ kernel. kernel.local ≡ None) }
{
    let sum = Expr::Binary(
        Op::Add,
        Box::new(alloc, Expr::Variable(0))?,
        Box::new(alloc, Expr::Number(1))?,
    );
    let inner = vec![in alloc;
        Stmt::Load(0, Array::Input(0), Expr::LoopVariable(0)),
        Stmt::Store(Array::Output(0), Expr::LoopVariable(0), sum),
    ]?;
    let body = vec![in alloc;
        Stmt::Loop(
            Start::GlobalId(Dimension::X),
            Expr::Size(0),
            Stride::GlobalSize(Dimension::X),
            inner
        ),
    ]?;
    Ok(Kernel {
        inputs: 1,
        outputs: 1,
        sizes: 1,
        locals: Vec::new(alloc),
        privates: Vec::new(alloc),
        variables: 1,
        vectors: 0,
        local: None,
        body,
    })
}

/// `o0[0u] = 1u;`
pub fn one_store(alloc: Global) -> Result<Kernel, AllocError>
    ensures inputs { IfOk result (λ kernel. kernel.inputs ≡ 0) }
    ensures outputs { IfOk result (λ kernel. kernel.outputs ≡ 1) }
    ensures sizes { IfOk result (λ kernel. kernel.sizes ≡ 0) }
    ensures local { IfOk result (λ kernel. kernel.local ≡ None) }
{
    let body = vec![in alloc; Stmt::Store(Array::Output(0), Expr::Number(0), Expr::Number(1))]?;
    Ok(Kernel {
        inputs: 0,
        outputs: 1,
        sizes: 0,
        locals: Vec::new(alloc),
        privates: Vec::new(alloc),
        variables: 0,
        vectors: 0,
        local: None,
        body,
    })
}

/// `for (i0 = local id; i0 < 1u; i0 += 1u) { barrier(local); }`
pub fn a_barrier_for_some(alloc: Global) -> Result<Kernel, AllocError>
    ensures inputs { IfOk result (λ kernel. kernel.inputs ≡ 0) }
    ensures outputs { IfOk result (λ kernel. kernel.outputs ≡ 1) }
    ensures sizes { IfOk result (λ kernel. kernel.sizes ≡ 0) }
    ensures local { IfOk result (λ kernel. kernel.local ≡ None) }
{
    let inner = vec![in alloc;
        Stmt::Barrier {
            on_local: true,
            on_global: false
        },
    ]?;
    let body = vec![in alloc;
        Stmt::Loop(
            Start::LocalId(Dimension::X),
            Expr::Number(1),
            Stride::One,
            inner
        ),
    ]?;
    Ok(Kernel {
        inputs: 0,
        outputs: 1,
        sizes: 0,
        locals: Vec::new(alloc),
        privates: Vec::new(alloc),
        variables: 0,
        vectors: 0,
        local: None,
        body,
    })
}
