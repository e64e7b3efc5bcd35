//! The audit of some nodes.
ghost use Rattle.std.specs.Prelude.{◌≡◌, IfOk, OnOk, IsErrOf};
ghost use Rattle.spl_audit.specs.{Clashes.{IsLeastClash, NoClash}, Keepers.keepers, Reporting.report, declared.auditing.AuditFault.TheVariants.NoMemory};
ghost use Rattle.spl_audit.specs.declared.clash.Clash.{Clash as Found};

use crate::clash::Clash;
use crate::report::{Report, report_of};
use crate::search::least_clash;
use spl_node::Keeper;
use std::alloc::{AllocError, Global};

/// Why an audit has no report.
#[derive(Clone, Copy)]
pub enum AuditFault {
    /// Two nodes clash here.
    Clash(Clash),
    /// Memory ran out.
    NoMemory,
}

impl From<AllocError> for AuditFault {
    ghost from_gives = { λ _ e. e ≡ NoMemory };

    fn from(_: AllocError) -> Self {
        AuditFault::NoMemory
    }
}

/// Compares what nodes keep of each circuit. The report comes exactly where no two of them clash,
/// and `Clash` with the least clash exactly where two do, unless memory runs out.
pub fn audit(alloc: Global, nodes: &[Keeper]) -> Result<Report, AuditFault>
    ensures report { IfOk result (λ r. r ≡ report (keepers nodes.now)) }
    ensures none { OnOk result (NoClash (keepers nodes.now)) }
    ensures clash { (s : Found) → IsErrOf result (AuditFault.Clash s) → IsLeastClash (keepers nodes.now) s }
{
    if let Some(clash) = least_clash(alloc, nodes)? {
        return Err(AuditFault::Clash(clash));
    }
    Ok(report_of(alloc, nodes)?)
}
