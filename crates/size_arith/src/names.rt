//! The names of sizes, and their values.

ghost use Rattle.std.specs.Prelude.{◌≡◌, ℕ, ◌≤◌, ◌<◌, ◌/◌, ◌%◌, [], ◌∷◌, ◌++◌, length, OnOk, OnErr, IfOk};
ghost use Rattle.size_arith.specs.Ranges;

use std::alloc::{AllocError, Global};
use std::marker::Model;

/// A declared size: `multiple` times its base name, from `from` to `to`.
///
/// The size `N multiple d` stands for `d` times a base name, so the base name
/// ranges from `from / d` to `to / d`.
#[derive(Clone, Copy, PartialEq, Eq)]
pub struct Name {
    pub multiple: u32,
    pub from: u32,
    pub to: u32,
}

/// The declared sizes in order, at most 8.
///
/// In each, `multiple`, `from` and `to` are 1 to 1,048,576, `from` and `to` are multiples of
/// `multiple`, and `to` isn't below `from`.
#[derive(Drop)]
pub struct Names {
    names: Vec<Name>,
}

impl Model for Names {
    ghost use Rattle.std.specs.Prelude.{List, ◌≤◌, length};
    ghost use Rattle.size_arith.specs.declared.names.Name.{Name};
    ghost use Rattle.size_arith.specs.Ranges;

    ghost Value = { List Name };

    ghost view = { λ n. n.names.items };

    ghost invariant = { λ n. (length n.names.items ≤ 8) × Ranges.AreNames n.names.items };
}

impl Names {
    /// No names.
    pub fn new(alloc: Global) -> Self
        ensures { result ≡ [] }
    {
        Names {
            names: Vec::new(alloc),
        }
    }

    /// Adds a name at the end.
    pub fn push(&mut self, name: Name) -> Result<(), AllocError>
        requires declared { Ranges.IsName name }
        requires room { length self.old < 8 }
        ensures ok { OnOk result (self.new ≡ self.old ++ name ∷ []) }
        ensures err { OnErr result (self.new ≡ self.old) }
    {
        self.names.push(name)?;
        Ok(())
    }

    /// The same names in memory of their own.
    pub fn copy(&self, alloc: Global) -> Result<Self, AllocError>
        ensures { IfOk result (λ names. names ≡ self.now) }
    {
        let names = Vec::from_slice(alloc, &self.names)?;
        Ok(Names { names })
    }

    /// The names in order.
    pub fn as_slice(&self) -> &[Name]
        ensures same { result.now ≡ self.now }
        ensures few { length self.now ≤ 8 }
        ensures declared { Ranges.AreNames self.now }
    {
        self.names.as_slice()
    }
}

/// The value of each base name, in the order of the names: a size is
/// its name's `multiple` times this.
#[derive(Drop)]
pub struct Sizes {
    bases: Vec<u32>,
}

impl Model for Sizes {
    ghost use Rattle.std.specs.Prelude.{List, ℕ, ◌≤◌, length};
    ghost use Rattle.size_arith.specs.Ranges;

    ghost Value = { List ℕ };

    ghost view = { λ s. s.bases.items };

    ghost invariant = { λ s. Ranges.AllUpTo 1048576 s.bases.items };
}

impl Sizes {
    /// No sizes.
    pub fn new(alloc: Global) -> Self
        ensures { result ≡ [] }
    {
        Sizes {
            bases: Vec::new(alloc),
        }
    }

    /// Adds the size of the next name.
    pub fn push(&mut self, name: Name, size: u32) -> Result<(), AllocError>
        requires declared { Ranges.IsName name }
        requires from { name.from ≤ size }
        requires to { size ≤ name.to }
        requires divides { size % name.multiple ≡ 0 }
        ensures ok { OnOk result (self.new ≡ self.old ++ size / name.multiple ∷ []) }
        ensures err { OnErr result (self.new ≡ self.old) }
    {
        self.bases.push(size / name.multiple)?;
        Ok(())
    }

    /// The same sizes in memory of their own.
    pub fn copy(&self, alloc: Global) -> Result<Self, AllocError>
        ensures { IfOk result (λ sizes. sizes ≡ self.now) }
    {
        let bases = Vec::from_slice(alloc, &self.bases)?;
        Ok(Sizes { bases })
    }

    /// The base names' values in order.
    pub fn as_slice(&self) -> &[u32]
        ensures same { result.now ≡ self.now }
        ensures limit { Ranges.AllUpTo 1048576 self.now }
    {
        self.bases.as_slice()
    }
}
