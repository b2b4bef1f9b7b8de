//! What a line of a script is answered.

ghost use Rattle.std.specs.Prelude.{◌≡◌};
ghost use Rattle.pickle_session.specs.Allowed.{is_refused};
ghost use Rattle.debug_json.specs.Answer.{refuses};

use pickle_script::{Query, Syntax};
use pickle_session::Reply;

/// What is said to a line of a script. With the session after it this determines the text for people, and the line of JSON.
#[derive(Clone, Copy, Debug, PartialEq, Eq)]
pub enum Said {
    /// The line has no word.
    Nothing,
    /// The line is `quit`.
    Quit,
    /// The reply to a command.
    Replied(Reply),
    /// No place has this offset.
    NoItem(u64),
    /// There is no object of this number.
    NoObject(u64),
    /// The line asks for nothing, or there is no memory for what it asks for.
    Bad(Syntax),
    /// What is asked about the session is shown.
    Shown(Query),
    /// The places that have a breakpoint are shown.
    Breaks,
    /// The items from one place on and before another are shown.
    SomeItems(usize, usize),
    /// The objects from one number on and before another are shown.
    SomeObjects(usize, usize),
    /// What the step over the item before the cursor did is shown.
    Step,
    /// No record of the step over the item before the cursor is kept.
    NoStep,
    /// The item that made the object of a number, and the items that changed it, are shown, of those from one on.
    Made(u64, usize),
}

/// Whether a reply is a refusal.
fn is_refused(reply: Reply) -> bool
    ensures { result ≡ is_refused reply }
{
    match reply {
        Reply::At(_) => false,
        Reply::Ran(_, _) => false,
        Reply::Broke(_) => false,
        Reply::Cleared(_) => false,
        Reply::Edited(_) => false,
        Reply::Undone(_) => false,
        Reply::Redone(_) => false,
        Reply::Refused(_) => true,
    }
}

/// Whether what is said is a refusal.
pub(crate) fn refuses(said: Said) -> bool
    ensures { result ≡ refuses said }
{
    match said {
        Said::Nothing => false,
        Said::Quit => false,
        Said::Replied(reply) => is_refused(reply),
        Said::NoItem(_) => true,
        Said::NoObject(_) => true,
        Said::Bad(_) => true,
        Said::Shown(_) => false,
        Said::Breaks => false,
        Said::SomeItems(_, _) => false,
        Said::SomeObjects(_, _) => false,
        Said::Step => false,
        Said::NoStep => true,
        Said::Made(_, _) => false,
    }
}
