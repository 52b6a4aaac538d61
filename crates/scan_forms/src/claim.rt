// Rows over what a scan speaks of.
ghost use Rattle.std.specs.Prelude.{◌≡◌, ◌++◌, IfOk, OnOk};
ghost use Rattle.std.specs.List.{list_any};
ghost use Rattle.scan_forms.specs.Forms.{same_kind, same_claim, has_claim as has_claim_of};

use crate::affine::Affine;
use chill_base::{List, NoMemory};
use std::alloc::Global;

/// A claim that a form is 0, or that it is at least 0.
#[derive(Drop)]
pub struct Claim {
    pub equal: bool,
    pub form: Affine,
}

fn is_same_kind(a: bool, b: bool) -> bool
    ensures { result ≡ same_kind a b }
{
    if a { b } else { !b }
}

impl Claim {
    pub fn is_same(&self, other: &Claim) -> bool
        ensures { result ≡ same_claim self.now other.now }
    {
        is_same_kind(self.equal, other.equal) && self.form.is_same(&other.form)
    }

    pub fn copy(&self, alloc: Global) -> Result<Claim, NoMemory>
        ensures { IfOk result (λ copy. copy ≡ self.now) }
    {
        Ok(Claim {
            equal: self.equal,
            form: self.form.copy(alloc)?,
        })
    }
}

/// Whether a claim is among the others.
pub fn has_claim(claims: &[Claim], claim: &Claim) -> bool
    ensures { result ≡ has_claim_of claims.now claim.now }
{
    for other in claims {
        if other.is_same(claim) {
            return true;
        }
    }
    false
}

/// Appends copies of claims.
pub fn push_claims(alloc: Global, to: &mut List<Claim>, claims: &[Claim]) -> Result<(), NoMemory>
    ensures { OnOk result (to.new ≡ to.old ++ claims.now) }
{
    for claim in claims {
        to.push(claim.copy(alloc)?)?;
    }
    Ok(())
}
