//! A handle: memory of a caller in which a session is open, or none.

ghost use Rattle.std.specs.Prelude.{◌≡◌, None, Some, MatchOption};
ghost use Rattle.std.specs.declared.option.Option.{Option};
ghost use Rattle.library_answers.specs.Talk.{Talk};
ghost use Rattle.library_answers.specs.Owned.{owned, flag_of};

use crate::conversation::Conversation;
use crate::loose::Loose;
use std::alloc::Global;
use std::marker::Model;
use std::mem::replace;
use std::ptr::null_mut;

/// What a caller holds of a session. Where all its bytes are 0, none is open in it.
#[repr(C)]
#[derive(Drop)]
pub struct Handle {
    at: *mut u8,
    // 1 where a session is open, else 0
    is_open: usize,
    pub ghost talk: { Option Talk },
    ghost tells: { is_open ≡ flag_of talk },
}

impl Model for Handle {
    ghost also_owns = { λ h. owned h.at h.talk };
}

impl Handle {
    /// A handle without a session.
    fn closed(at: *mut u8, is_open: usize) -> Handle
        requires { is_open ≡ 0 }
        ensures { result.talk ≡ None }
    {
        Handle { at, is_open }
    }

    /// The handle of a session.
    fn of(loose: Loose<Conversation, Global>, is_open: usize) -> Handle
        requires { is_open ≡ 1 }
        ensures { result.talk ≡ Some loose.value }
    {
        let Loose { at, alloc: _ } = loose;
        Handle {
            at: at as *mut u8,
            is_open,
        }
    }

    /// Whether a session is open, and the handle again.
    fn with_open(self) -> (usize, Handle)
        ensures { (result.0 ≡ self.is_open) × (result.1 ≡ self) }
    {
        let Handle { at, is_open } = self;
        (is_open, Handle { at, is_open })
    }

    /// The session that is open.
    fn into_loose(self, alloc: Global) -> Loose<Conversation, Global>
        requires { self.is_open ≡ 1 }
        ensures { self.talk ≡ Some result.value }
    {
        let Handle { at, is_open: _ } = self;
        Loose {
            at: at as *mut Conversation,
            alloc,
        }
    }
}

/// Takes the session out of a handle, if one is open.
pub fn take(alloc: Global, handle: &mut Handle) -> Option<Box<Conversation>>
    ensures closed { handle.new.talk ≡ None }
    ensures taken { MatchOption result (handle.old.talk ≡ None) (λ b. handle.old.talk ≡ Some b.value) }
{
    let nowhere: *mut u8 = null_mut();
    let (is_open, was) = replace(handle, Handle::closed(nowhere, 0)).with_open();
    if is_open == 1 {
        Some(was.into_loose(alloc).into_box())
    } else {
        None
    }
}

/// Puts a session into a handle, which is closed: what is in an open one would be lost.
pub fn put_in(handle: &mut Handle, talk: Box<Conversation>)
    requires { handle.old.talk ≡ None }
    ensures { handle.new.talk ≡ Some talk.value }
{
    *handle = Handle::of(Loose::of(talk), 1);
}
