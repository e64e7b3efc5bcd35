//! The texts of a report and of a clash.
ghost use Rattle.std.specs.{Prelude.{◌≡◌, ◌++◌, OnOk, codes, decimal}, List.flat_map};
ghost use Rattle.spl_audit.specs.Texts.{clash_text, found_line, kind_of_clash, kind_text, report_text};

use crate::clash::{Clash, Kind};
use crate::report::Found;
use itoa::Buffer;
use spl_base::NodeId;
use std::alloc::AllocError;

fn append(bytes: &[u8], out: &mut Vec<u8>) -> Result<(), AllocError>
    ensures { OnOk result (out.new.items ≡ out.old.items ++ bytes.now) }
{
    out.extend_from_slice(bytes)
}

/// Appends the text, and the number in decimal digits.
fn append_numbered(text: &[u8], n: u64, out: &mut Vec<u8>) -> Result<(), AllocError>
    ensures { OnOk result (out.new.items ≡ out.old.items ++ (text.now ++ decimal n)) }
{
    let mut buffer = Buffer::new();
    append(text, out)?;
    append(buffer.format(n).as_bytes(), out)
}

/// Appends a space, and the id of a node.
fn append_node(node: &NodeId, out: &mut Vec<u8>) -> Result<(), AllocError>
    ensures { OnOk result (out.new.items ≡ out.old.items ++ (codes " " ++ node.now)) }
{
    append(b" ", out)?;
    append(node.bytes(), out)
}

impl Kind {
    /// Its name.
    fn text(self) -> &'static [u8]
        ensures { result.now ≡ kind_text self }
    {
        match self {
            Kind::Definitions => b"definitions",
            Kind::Acts => b"acts",
            Kind::Batches => b"batches",
        }
    }
}

impl Found {
    /// Appends its line.
    fn append_line(&self, out: &mut Vec<u8>) -> Result<(), AllocError>
        ensures { OnOk result (out.new.items ≡ out.old.items ++ found_line self.now) }
    {
        append(self.circuit.bytes(), out)?;
        append_numbered(b" ", u64::from(self.generation.0), out)?;
        append_numbered(b" acts ", self.acts as u64, out)?;
        append_numbered(b" batches ", self.batches as u64, out)?;
        append(b"\n", out)
    }
}

/// Appends the lines of a report, and `agreed`. Where memory runs out, a part of it may stand there.
pub fn append_report(report: &[Found], out: &mut Vec<u8>) -> Result<(), AllocError>
    ensures { OnOk result (out.new.items ≡ out.old.items ++ report_text report.now) }
{
    'found: for found in report {
        found.append_line(out)?;
    }
    append(b"agreed\n", out)
}

impl Clash {
    /// Appends its circuit and its kind.
    fn append_kind(&self, out: &mut Vec<u8>) -> Result<(), AllocError>
        ensures { OnOk result (out.new.items ≡ out.old.items ++ kind_of_clash self.now) }
    {
        append(b"disagreed ", out)?;
        append(self.circuit.bytes(), out)?;
        append_numbered(b" ", u64::from(self.generation.0), out)?;
        append(b" ", out)?;
        append(self.kind.text(), out)
    }

    /// Appends its line, in which the two nodes have these ids. Where memory runs out, a part of it
    /// may stand there.
    pub fn append_line(
        &self,
        first: &NodeId,
        second: &NodeId,
        out: &mut Vec<u8>,
    ) -> Result<(), AllocError>
        ensures { OnOk result (out.new.items ≡ out.old.items ++ clash_text self.now first.now second.now) }
    {
        self.append_kind(out)?;
        append_node(first, out)?;
        append_node(second, out)?;
        append_numbered(b" ", self.place as u64, out)?;
        append(b"\n", out)
    }
}
