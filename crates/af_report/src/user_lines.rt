//! A line for each user.
ghost use Rattle.std.specs.Prelude.{◌≡◌, IfOk, OnOk};
ghost use Rattle.af_report.specs.Texts.{AppendsText};
ghost use Rattle.af_report.specs.Totals.{totals_text, user_line};

use af_base::ids::Uid;
use af_steps::Engine;
use std::alloc::{AllocError, Global};

/// Appends the line of a user.
fn push_user(text: &mut String, user: Uid, charged: u64) -> Result<(), AllocError>
    ensures { OnOk result (AppendsText text.old text.new (user_line user charged)) }
{
    writeln!(text, "user {user} inflight {charged}")
}

/// Writes the totals: how many descriptors in flight are charged to each user (unix(7),
/// ETOOMANYREFS), in the order of their first process.
pub fn totals(alloc: Global, engine: &Engine) -> Result<Vec<u8>, AllocError>
    ensures { IfOk result (λ text. text.items ≡ totals_text engine.now.world) }
{
    let mut text = String::new(alloc);
    for i in 0..engine.users() {
        let user = engine.user_at(i).unwrap();
        push_user(&mut text, user, engine.charged(user))?;
    }
    Ok(text.into_bytes())
}
