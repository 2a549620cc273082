//! The locals in scope.
ghost use Rattle.std.specs.Prelude.{◌≡◌, ◌∷◌, [], ◌++◌, cond, is_ok, IfOk};
ghost use Rattle.clj_script.specs.Scopes.{innermost};
ghost use Rattle.clj_script.specs.Locals.{all_but_last};

use std::alloc::{AllocError, Global};
use std::collections::HashMap;
use std::marker::Model;

/// A local in scope.
#[derive(Drop)]
struct Local {
    name: Vec<u8>,
    /// The innermost local outside it that has its name.
    shadowed: Option<u32>,
}

/// The locals in scope, the outermost first, with the innermost of each name at hand.
#[derive(Drop)]
pub(crate) struct Locals {
    all: Vec<Local>,
    innermost: HashMap<Vec<u8>, u32>,
}

impl Model for Locals {
    ghost use Rattle.std.specs.Prelude.{List, ℕ};
    ghost use Rattle.clj_script.specs.Locals.{names, IsKept};

    ghost Value = { List (List ℕ) };

    ghost view = { λ l. names l.all.items };

    ghost invariant = { λ l. IsKept l.all.items l.innermost };
}

impl Locals {
    /// None.
    pub(crate) fn new(alloc: Global) -> Locals
        ensures { result ≡ [] }
    {
        Locals {
            all: Vec::new(alloc),
            innermost: HashMap::new(alloc),
        }
    }

    /// The number of the innermost local with a name.
    pub(crate) fn find(&self, name: &[u8]) -> Option<u32>
        ensures { result ≡ innermost self.now name.now }
    {
        self.innermost.get(name).copied()
    }

    /// Binds one more local inside the others. Without memory for it nothing changes.
    pub(crate) fn bind(&mut self, alloc: Global, name: &[u8]) -> Result<(), AllocError>
        ensures { self.new ≡ (cond (is_ok result) (self.old ++ name.now ∷ []) self.old) }
    {
        let number = number_of(self.all.len())?;
        let shadowed = self.innermost.get(name).copied();
        let key = Vec::from_slice(alloc, name)?;
        let name = Vec::from_slice(alloc, name)?;
        self.all.push(Local { name, shadowed })?;
        match self.innermost.insert(key, number) {
            Ok(_) => Ok(()),
            Err(_) => {
                self.all.pop();
                Err(AllocError)
            }
        }
    }

    /// Takes the innermost local out of scope.
    pub(crate) fn unbind(&mut self)
        ensures { self.new ≡ all_but_last self.old }
    {
        let Some(Local { name, shadowed }) = self.all.pop() else {
            return;
        };
        let Some(number) = shadowed else {
            self.innermost.remove(name.as_slice());
            return;
        };
        match self.innermost.insert(name, number) {
            Ok(_) => {}
            Err(_) => unreachable!(),
        }
    }
}

/// A count as a number of 32 bits. More are taken for want of memory.
pub(crate) fn number_of(count: usize) -> Result<u32, AllocError>
    ensures { IfOk result (λ number. number ≡ count) }
{
    match u32::try_from(count) {
        Ok(number) => Ok(number),
        Err(_) => Err(AllocError),
    }
}
