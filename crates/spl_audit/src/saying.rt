//! What an audit says of nodes, and its text.
ghost use Rattle.std.specs.Prelude.{◌≡◌, IfOk};
ghost use Rattle.spl_audit.specs.{Audited.AreCellsKept, Clashes.IsLeastClash, Keepers.keepers, Runs.{SaysVerdict, SaysClash}, Texts.report_text};

use crate::auditing::{AuditFault, audit};
use crate::clash::Clash;
use crate::laws::audited_nodes_agree;
use crate::report::Found;
use crate::text::append_report;
use crate::verdict::Verdict;
use spl_node::Keeper;
use std::alloc::{AllocError, Global};

/// What is said of nodes, and the text that says it.
#[derive(Drop)]
pub(crate) struct Said {
    pub(crate) verdict: Verdict,
    pub(crate) text: Vec<u8>,
}

/// The text of a report.
fn report_text(alloc: Global, report: &[Found]) -> Result<Vec<u8>, AllocError>
    ensures { IfOk result (λ t. t.items ≡ report_text report.now) }
{
    let mut text = Vec::new(alloc);
    append_report(report, &mut text)?;
    Ok(text)
}

/// The line of the least clash of these nodes.
fn clash_text(alloc: Global, nodes: &[Keeper], clash: &Clash) -> Result<Vec<u8>, AllocError>
    requires { IsLeastClash (keepers nodes.now) clash.now }
    ensures { IfOk result (λ t. SaysClash (keepers nodes.now) clash.now t.items) }
{
    let first = nodes[clash.first].here();
    let second = nodes[clash.second].here();
    let mut text = Vec::new(alloc);
    clash.append_line(&first, &second, &mut text)?;
    Ok(text)
}

/// Audits nodes that the rules of cells keep, and says what is found. The only error is that memory ran
/// out.
pub(crate) fn say(alloc: Global, nodes: &[Keeper]) -> Result<Said, AllocError>
    requires { AreCellsKept (keepers nodes.now) }
    ensures { IfOk result (λ s. SaysVerdict s.verdict (keepers nodes.now) s.text.items) }
{
    audited_nodes_agree();
    match audit(alloc, nodes) {
        Ok(report) => Ok(Said {
            verdict: Verdict::Agreed,
            text: report_text(alloc, report.as_slice())?,
        }),
        Err(AuditFault::Clash(clash)) => Ok(Said {
            verdict: Verdict::Disagreed,
            text: clash_text(alloc, nodes, &clash)?,
        }),
        Err(AuditFault::NoMemory) => Err(AllocError),
    }
}
