//! The contents of files: files attached to messages, and embryos.
ghost use Rattle.std.specs.Prelude.{OnOk};
ghost use Rattle.std.specs.List.{flat_map};
ghost use Rattle.af_base.specs.Listing.{file_of, message_of};
ghost use Rattle.af_report.specs.Texts.{AppendsText};
ghost use Rattle.af_report.specs.Graph.{attached_text, contents_text, embryo_text, message_text};

use af_base::ids::{Ino, Uid};
use af_base::listing::{ListedFile, ListedMessage};
use std::alloc::AllocError;

/// Appends an edge to a file that is attached to a message of the user.
fn push_attached(text: &mut String, ino: Ino, user: Uid, attached: Ino) -> Result<(), AllocError>
    ensures { OnOk result (AppendsText text.old text.new (attached_text ino user attached)) }
{
    writeln!(
        text,
        "f{ino} -> f{attached} [color=blue, label=\"user {user}\"]"
    )
}

/// Appends an edge to each file that is attached to a message of the user.
fn push_message(text: &mut String, ino: Ino, user: Uid, attached: &[Ino]) -> Result<(), AllocError>
    ensures { OnOk result
        (AppendsText text.old text.new (flat_map (attached_text ino user) attached.now)) }
{
    for other in attached {
        push_attached(text, ino, user, *other)?;
    }
    Ok(())
}

/// Appends an edge to an embryo.
fn push_embryo(text: &mut String, ino: Ino, embryo: Ino) -> Result<(), AllocError>
    ensures { OnOk result (AppendsText text.old text.new (embryo_text ino embryo)) }
{
    writeln!(text, "f{ino} -> f{embryo} [style=dashed, label=embryo]")
}

/// Appends an edge to each file that is attached to a message of a queue.
fn push_queue(text: &mut String, ino: Ino, queue: &[ListedMessage]) -> Result<(), AllocError>
    ensures { OnOk result (AppendsText text.old text.new
        (flat_map (λ m. message_text ino (message_of m)) queue.now)) }
{
    for message in queue {
        push_message(text, ino, message.user, message.attached.as_slice())?;
    }
    Ok(())
}

/// Appends an edge to each embryo of a backlog.
fn push_backlog(text: &mut String, ino: Ino, backlog: &[Ino]) -> Result<(), AllocError>
    ensures { OnOk result (AppendsText text.old text.new (flat_map (embryo_text ino) backlog.now)) }
{
    for embryo in backlog {
        push_embryo(text, ino, *embryo)?;
    }
    Ok(())
}

/// Appends what waits at a file.
fn push_waiting(text: &mut String, file: &ListedFile) -> Result<(), AllocError>
    ensures { OnOk result
        (AppendsText text.old text.new (contents_text file.now.ino (file_of file.now))) }
{
    let Some(socket) = &file.socket else {
        return Ok(());
    };
    push_queue(text, file.ino, socket.queue.as_slice())?;
    push_backlog(text, file.ino, socket.backlog.as_slice())?;
    Ok(())
}

/// Appends what waits at all files.
pub fn push_all_waiting(text: &mut String, files: &[ListedFile]) -> Result<(), AllocError>
    ensures { OnOk result (AppendsText text.old text.new
        (flat_map (λ x. contents_text x.ino (file_of x)) files.now)) }
{
    for file in files {
        push_waiting(text, file)?;
    }
    Ok(())
}
