//! The lease of a pass.
ghost use Rattle.std.specs.Prelude.{◌≡◌, ◌↔◌, IfSome, IsSome, true};
ghost use Rattle.coordination.specs.Shown.{lease_shown};

use crate::passes::Pass;
use resource_lock::WorkerId;
use std::marker::Model;

/// The lease of a pass. While it lives, its pass is borrowed, so that it can't take part in a call
/// that would give the lease back.
#[derive(Drop)]
pub struct Lease<'a> {
    pass: &'a Pass,
}

impl<'a> Model for Lease<'a> {
    ghost use Rattle.std.specs.Prelude.{◌≡◌, true};
    ghost use Rattle.coordination.specs.Passes.{PassView};
    ghost use Rattle.coordination.specs.Shown.{lease_shown};

    ghost Value = { PassView };

    ghost view = { λ lease. lease.pass.now };

    ghost invariant = { λ lease. lease_shown lease.pass.now.sight ≡ true };
}

impl<'a> Lease<'a> {
    /// The pass, which has the lease.
    pub fn pass(&self) -> &'a Pass
        ensures pass { result.now ≡ self.now }
        ensures lease { lease_shown self.now.sight ≡ true }
    {
        self.pass
    }

    /// The worker, which has the lease.
    pub fn worker(&self) -> WorkerId
        ensures worker { result ≡ self.now.sight.worker }
        ensures lease { lease_shown self.now.sight ≡ true }
    {
        self.pass.worker()
    }
}

/// The lease of the pass. None exactly where the pass has none.
pub fn current_lease(pass: &Pass) -> Option<Lease<'_>>
    ensures some { IsSome result ↔ (lease_shown pass.now.sight ≡ true) }
    ensures pass { IfSome result (λ lease. lease ≡ pass.now) }
{
    if pass.has_lease() {
        Some(Lease { pass })
    } else {
        None
    }
}
