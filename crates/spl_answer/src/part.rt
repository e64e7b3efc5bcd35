//! Appending pieces of text.
ghost use Rattle.std.specs.Prelude.{◌≡◌, ◌++◌, OnOk, decimal};
ghost use Rattle.spl_answer.specs.Texts.{items_after_commas, nodes_text};

use spl_base::NodeId;
use spl_circuit::Members;
use std::alloc::AllocError;

pub(crate) fn append(bytes: &[u8], out: &mut Vec<u8>) -> Result<(), AllocError>
    ensures { OnOk result (out.new.items ≡ out.old.items ++ bytes.now) }
{
    out.extend_from_slice(bytes)
}

/// Appends the number in decimal digits.
#[tactic(auto, using(std::proofs::lemmas::Fmt::decimal_digit))]
pub(crate) fn append_number(n: u64, out: &mut Vec<u8>) -> Result<(), AllocError>
    ensures { OnOk result (out.new.items ≡ out.old.items ++ decimal n) }
{
    if n < 10 {
        return append(&[b'0' + n as u8], out);
    }
    append_number(n / 10, out)?;
    append(&[b'0' + (n % 10) as u8], out)
}

/// Appends the text, and the number in decimal digits.
pub(crate) fn append_numbered(text: &[u8], n: u64, out: &mut Vec<u8>) -> Result<(), AllocError>
    ensures { OnOk result (out.new.items ≡ out.old.items ++ (text.now ++ decimal n)) }
{
    append(text, out)?;
    append_number(n, out)
}

fn append_others(nodes: &[NodeId], out: &mut Vec<u8>) -> Result<(), AllocError>
    ensures { OnOk result (out.new.items ≡ out.old.items ++ items_after_commas (λ n. n) nodes.now) }
{
    for node in nodes {
        append(b",", out)?;
        append(node.bytes(), out)?;
    }
    Ok(())
}

/// Appends the nodes with `,` between them, or `-` where there are none.
pub(crate) fn append_nodes(nodes: &Members, out: &mut Vec<u8>) -> Result<(), AllocError>
    ensures { OnOk result (out.new.items ≡ out.old.items ++ nodes_text nodes.now) }
{
    let Some((first, others)) = nodes.as_slice().split_first() else {
        return append(b"-", out);
    };
    append(first.bytes(), out)?;
    append_others(others, out)
}
