//! Processes, and the files of their descriptors.
ghost use Rattle.std.specs.Prelude.{OnOk};
ghost use Rattle.std.specs.List.{All, flat_map};
ghost use Rattle.af_base.specs.Listing.{IsRisingTable, process_of};
ghost use Rattle.af_report.specs.Texts.{AppendsText};
ghost use Rattle.af_report.specs.Graph.{box_text, descriptor_text, process_text};

use af_base::ids::Pid;
use af_base::listing::{ListedNumber, ListedTable};
use std::alloc::AllocError;

/// Appends an edge from a process to the file of one of its descriptors.
fn push_number(text: &mut String, pid: Pid, number: ListedNumber) -> Result<(), AllocError>
    ensures { OnOk result
        (AppendsText text.old text.new (descriptor_text pid number.fd number.ino)) }
{
    let ListedNumber { fd, ino } = number;
    writeln!(text, "p{pid} -> f{ino} [label=\"{fd}\"]")
}

/// Appends an edge for each descriptor of a process.
fn push_numbers(text: &mut String, pid: Pid, numbers: &[ListedNumber]) -> Result<(), AllocError>
    ensures { OnOk result (AppendsText text.old text.new
        (flat_map (λ n. descriptor_text pid n.fd n.ino) numbers.now)) }
{
    for number in numbers {
        push_number(text, pid, *number)?;
    }
    Ok(())
}

/// Appends a process, without its descriptors.
fn push_box(text: &mut String, pid: Pid) -> Result<(), AllocError>
    ensures { OnOk result (AppendsText text.old text.new (box_text pid)) }
{
    writeln!(text, "p{pid} [shape=box, label=\"process {pid}\"]")
}

/// Appends a process, and its descriptors.
fn push_process(text: &mut String, table: &ListedTable) -> Result<(), AllocError>
    requires { IsRisingTable table.now }
    ensures { OnOk result
        (AppendsText text.old text.new (process_text table.now.pid (process_of table.now))) }
{
    push_box(text, table.pid)?;
    push_numbers(text, table.pid, table.numbers.as_slice())?;
    Ok(())
}

/// Appends all processes.
pub fn push_processes(text: &mut String, tables: &[ListedTable]) -> Result<(), AllocError>
    requires { All IsRisingTable tables.now }
    ensures { OnOk result (AppendsText text.old text.new
        (flat_map (λ t. process_text t.pid (process_of t)) tables.now)) }
{
    for table in tables {
        push_process(text, table)?;
    }
    Ok(())
}
