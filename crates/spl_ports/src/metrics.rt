//! The counters of a node that serves.
ghost use Rattle.std.specs.Prelude.{◌≡◌, ◌++◌, IfOk, OnOk, decimal};
ghost use Rattle.spl_ports.specs.Metrics.{asked_text, counter, counter_count, counter_name, counter_type, metrics_text, passed_text, tally_text};
ghost use Rattle.spl_ports.specs.Metrics.{traffic_text};

use crate::peer::Counts;
use itoa::Buffer;
use spl_base::Piece;
use spl_serve::Tally;
use std::alloc::{AllocError, Global};

/// What the operators of a node asked since the process began.
#[derive(Clone, Copy, Drop)]
pub(crate) struct Asked {
    /// Connections of operators.
    pub(crate) operators: u64,
    pub(crate) lines: u64,
    /// Those that were answered `bad line`.
    pub(crate) bad_lines: u64,
}

impl Asked {
    pub(crate) fn new() -> Asked {
        Asked {
            operators: 0,
            lines: 0,
            bad_lines: 0,
        }
    }

    pub(crate) fn add_operator(&mut self) {
        self.operators = self.operators.saturating_add(1);
    }

    pub(crate) fn add_line(&mut self) {
        self.lines = self.lines.saturating_add(1);
    }

    pub(crate) fn add_bad_line(&mut self) {
        self.bad_lines = self.bad_lines.saturating_add(1);
    }
}

fn append(bytes: &[u8], out: &mut Vec<u8>) -> Result<(), AllocError>
    ensures { OnOk result (out.new.items ≡ out.old.items ++ bytes.now) }
{
    out.extend_from_slice(bytes)
}

fn append_number(n: u64, out: &mut Vec<u8>) -> Result<(), AllocError>
    ensures { OnOk result (out.new.items ≡ out.old.items ++ decimal n) }
{
    let mut buffer = Buffer::new();
    append(buffer.format(n).as_bytes(), out)
}

fn append_name(name: &[u8], out: &mut Vec<u8>) -> Result<(), AllocError>
    ensures { OnOk result (out.new.items ≡ out.old.items ++ counter_name name.now) }
{
    append(b"splinter_", out)?;
    append(name, out)?;
    append(b"_total", out)
}

fn append_type(name: &[u8], out: &mut Vec<u8>) -> Result<(), AllocError>
    ensures { OnOk result (out.new.items ≡ out.old.items ++ counter_type name.now) }
{
    append(b"# TYPE ", out)?;
    append_name(name, out)?;
    append(b" counter\n", out)
}

fn append_count(name: &[u8], count: u64, out: &mut Vec<u8>) -> Result<(), AllocError>
    ensures { OnOk result (out.new.items ≡ out.old.items ++ counter_count name.now count) }
{
    append_name(name, out)?;
    append(b" ", out)?;
    append_number(count, out)?;
    append(b"\n", out)
}

fn append_counter(name: &[u8], count: u64, out: &mut Vec<u8>) -> Result<(), AllocError>
    ensures { OnOk result (out.new.items ≡ out.old.items ++ counter name.now count) }
{
    append_type(name, out)?;
    append_count(name, count, out)
}

// What the node did.
fn append_tally(tally: &Tally, out: &mut Vec<u8>) -> Result<(), AllocError>
    ensures { OnOk result (out.new.items ≡ out.old.items ++ tally_text tally.now) }
{
    append_counter(b"turns", tally.turns, out)?;
    append_counter(b"events", tally.events, out)?;
    append_counter(b"records", tally.records, out)?;
    append_counter(b"syncs", tally.syncs, out)
}

// What went to its peers, and came from them.
fn append_traffic(counts: &Counts, out: &mut Vec<u8>) -> Result<(), AllocError>
    ensures { OnOk result (out.new.items ≡ out.old.items ++ traffic_text counts.now) }
{
    append_counter(b"messages_out", counts.sent, out)?;
    append_counter(b"bytes_out", counts.sent_bytes, out)?;
    append_counter(b"messages_in", counts.heard, out)?;
    append_counter(b"bytes_in", counts.heard_bytes, out)
}

// What passed between it and its peers.
fn append_passed(counts: &Counts, out: &mut Vec<u8>) -> Result<(), AllocError>
    ensures { OnOk result (out.new.items ≡ out.old.items ++ passed_text counts.now) }
{
    append_traffic(counts, out)?;
    append_counter(b"messages_dropped", counts.dropped, out)?;
    append_counter(b"peer_connections", counts.connections, out)
}

// What its operators asked.
fn append_asked(asked: &Asked, out: &mut Vec<u8>) -> Result<(), AllocError>
    ensures { OnOk result (out.new.items ≡ out.old.items ++ asked_text asked.now) }
{
    append_counter(b"operator_connections", asked.operators, out)?;
    append_counter(b"lines", asked.lines, out)?;
    append_counter(b"bad_lines", asked.bad_lines, out)
}

/// The answer to the line `metrics`: how many lines follow, and a counter in each two of them.
pub(crate) fn metrics(
    alloc: Global,
    tally: &Tally,
    counts: &Counts,
    asked: &Asked,
) -> Result<Piece, AllocError>
    ensures { IfOk result (λ p. p ≡ metrics_text tally.now counts.now asked.now) }
{
    let mut out = Vec::new(alloc);
    append(b"ok metrics 26\n", &mut out)?;
    append_tally(tally, &mut out)?;
    append_passed(counts, &mut out)?;
    append_asked(asked, &mut out)?;
    Ok(Piece::from_vec(out))
}
