//! Structures of DMAR with scopes, and how many scopes they have at most.

use acpi_tables::dmar::{Atsr, DeviceScope, Drhd, Rmrr, Satc, ScopeType, Sidp};
use acpi_tables::{Error, R};
use std::alloc::Global;
use std::test::Fail;
use test_support::refuses;

/// A structure with scopes.
pub trait Scoped: Sized {
    /// One without scopes.
    fn bare(alloc: Global) -> Self;

    fn add(&mut self, scope: &DeviceScope) -> R<()>;
}

impl Scoped for Drhd {
    fn bare(alloc: Global) -> Drhd {
        Drhd::new(alloc, 1, 2)
    }

    fn add(&mut self, scope: &DeviceScope) -> R<()> {
        self.add_scope(scope)
    }
}

impl Scoped for Rmrr {
    fn bare(alloc: Global) -> Rmrr {
        Rmrr::new(alloc, 1, 2, 3)
    }

    fn add(&mut self, scope: &DeviceScope) -> R<()> {
        self.add_scope(scope)
    }
}

impl Scoped for Atsr {
    fn bare(alloc: Global) -> Atsr {
        Atsr::new(alloc, 1)
    }

    fn add(&mut self, scope: &DeviceScope) -> R<()> {
        self.add_scope(scope)
    }
}

impl Scoped for Satc {
    fn bare(alloc: Global) -> Satc {
        Satc::new(alloc, 1)
    }

    fn add(&mut self, scope: &DeviceScope) -> R<()> {
        self.add_scope(scope)
    }
}

impl Scoped for Sidp {
    fn bare(alloc: Global) -> Sidp {
        Sidp::new(alloc, 1)
    }

    fn add(&mut self, scope: &DeviceScope) -> R<()> {
        self.add_scope(scope)
    }
}

/// A structure with one scope.
pub fn with_scope<T: Scoped + Drop>(alloc: Global, scope: &DeviceScope) -> R<T> {
    let mut structure = T::bare(alloc);
    structure.add(scope)?;
    Ok(structure)
}

// A scope with a path of this many steps.
fn scope_of(alloc: Global, steps: u8) -> R<DeviceScope> {
    let mut scope = DeviceScope::new(alloc, ScopeType::PciSubHierarchy, 0, 0, 0, 0)?;
    for step in 1..steps {
        scope.add_step(step, 0)?;
    }
    Ok(scope)
}

fn fill<T: Scoped>(structure: &mut T, scope: &DeviceScope) -> R<()> {
    for _ in 0..257u16 {
        structure.add(scope)?;
    }
    Ok(())
}

// Fails unless a structure has room for a scope of this many steps, but for none of one more, and then for no other.
fn ends<T: Scoped>(alloc: Global, structure: &mut T, steps: u8) -> Result<(), Fail> {
    let longer = scope_of(alloc, steps.saturating_add(1))?;
    refuses(structure.add(&longer), Error::FieldWidth)?;
    structure.add(&scope_of(alloc, steps)?)?;
    refuses(structure.add(&longer), Error::FieldWidth)
}

// The same of a structure with 257 scopes of 254 bytes.
fn fills<T: Scoped + Drop>(alloc: Global, long: &DeviceScope, steps: u8) -> Result<(), Fail> {
    let mut structure = T::bare(alloc);
    fill(&mut structure, long)?;
    ends(alloc, &mut structure, steps)
}

// A structure has at most 65,535 bytes: its own 16, 24 or 8, the 65,278 of 257 scopes of 124 steps, and 6 and 2 for each step.
#[test]
fn the_most_scopes(rt: HostRuntime) -> Result<(), Fail> {
    let alloc = rt.alloc();
    let long = scope_of(alloc, 124)?;
    fills::<Drhd>(alloc, &long, 117)?;
    fills::<Rmrr>(alloc, &long, 113)?;
    fills::<Atsr>(alloc, &long, 121)?;
    fills::<Satc>(alloc, &long, 121)?;
    fills::<Sidp>(alloc, &long, 121)
}
