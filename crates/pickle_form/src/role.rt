//! What picklers do with an object.

ghost use Rattle.std.specs.Prelude.{◌≡◌, if◌then◌else◌, Some, None};
ghost use Rattle.pickle_form.specs.Name.{is_text};
ghost use Rattle.pickle_form.specs.Held.{text_role};

use crate::name::{is_name, is_text, is_word};
use pickle_names::Coding;
use pickle_ops::Filling;

/// What picklers do with an object.
#[derive(Clone, Copy, Debug, PartialEq, Eq)]
pub enum Role {
    /// Nothing: there is none, under a key of the memo that was left out.
    Absent,
    /// Nothing but to put it somewhere.
    Value,
    /// None, which is no state.
    Null,
    /// A text that is no plain name.
    Text,
    /// A text that is a plain name, which may be that of an import.
    Name,
    /// A tuple, which may be arguments.
    Tuple,
    /// A tuple of two objects behind a mark, which is arguments at once.
    Two,
    /// A list, which gets items by APPEND and APPENDS.
    List,
    /// A list behind a full batch of items.
    MoreList,
    /// A dictionary, which gets items by SETITEM and SETITEMS, or is the keywords of a call.
    Dict,
    /// A dictionary behind a full batch of items.
    MoreDict,
    /// A dictionary that has its items, which may be the keywords of a call.
    FilledDict,
    /// A set, which gets items by ADDITEMS.
    Set,
    /// A set behind a full batch of items.
    MoreSet,
    /// What was imported, which may be called.
    Import,
    /// What a call made, which may be called, and gets items and a state.
    Made,
    /// What INST or OBJ made, which gets a state of any kind besides.
    Instance,
    /// What a persistent id stands for, which may be called.
    Outside,
    /// A buffer from outside.
    Buffer,
}

impl Role {
    ghost use Rattle.std.specs.Prelude.{◌≡◌, ◌<◌, ◌≤◌, ◌*◌};
    ghost use Rattle.pickle_form.specs.Held.{is_name_role, is_there, is_buffer, is_dict, is_two, is_tuple, is_list, is_null, is_instance, is_callable, is_arguments, is_target, least_of, filled_role};

    /// Whether it is a plain name.
    pub fn is_name(self) -> bool
        ensures { result ≡ is_name_role self }
    {
        matches!(self, Role::Name)
    }

    /// Whether it is an object.
    pub fn is_there(self) -> bool
        ensures { result ≡ is_there self }
    {
        !matches!(self, Role::Absent)
    }

    /// Whether it is a buffer.
    pub fn is_buffer(self) -> bool
        ensures { result ≡ is_buffer self }
    {
        matches!(self, Role::Buffer)
    }

    /// Whether it is a dictionary.
    pub fn is_dict(self) -> bool
        ensures { result ≡ is_dict self }
    {
        match self {
            Role::Dict => true,
            Role::MoreDict => true,
            Role::FilledDict => true,
            _ => false,
        }
    }

    /// Whether it is a marked tuple of two.
    pub fn is_two(self) -> bool
        ensures { result ≡ is_two self }
    {
        matches!(self, Role::Two)
    }

    /// Whether it is None.
    pub fn is_null(self) -> bool
        ensures { result ≡ is_null self }
    {
        matches!(self, Role::Null)
    }

    /// Whether INST or OBJ made it.
    pub fn is_instance(self) -> bool
        ensures { result ≡ is_instance self }
    {
        matches!(self, Role::Instance)
    }

    /// Whether it is a tuple.
    pub fn is_tuple(self) -> bool
        ensures { result ≡ is_tuple self }
    {
        matches!(self, Role::Tuple)
    }

    /// Whether it is a list that nothing went into.
    pub fn is_list(self) -> bool
        ensures { result ≡ is_list self }
    {
        matches!(self, Role::List)
    }

    /// Whether picklers call it.
    pub fn is_callable(self) -> bool
        ensures { result ≡ is_callable self }
    {
        match self {
            Role::Import => true,
            Role::Made => true,
            Role::Instance => true,
            Role::Outside => true,
            _ => false,
        }
    }

    /// Whether it may be the arguments of a call.
    pub fn is_arguments(self) -> bool
        ensures { result ≡ is_arguments self }
    {
        match self {
            Role::Tuple => true,
            Role::Two => true,
            Role::Made => true,
            Role::Instance => true,
            _ => false,
        }
    }

    /// Whether picklers put something into it so.
    pub fn is_target(self, filling: Filling) -> bool
        ensures { result ≡ is_target filling self }
    {
        match self {
            Role::Made => true,
            Role::Instance => true,
            Role::List => matches!(filling, Filling::Append),
            Role::MoreList => matches!(filling, Filling::Append),
            Role::Dict => matches!(filling, Filling::SetItem),
            Role::MoreDict => matches!(filling, Filling::SetItem),
            Role::Set => matches!(filling, Filling::Add),
            Role::MoreSet => matches!(filling, Filling::Add),
            _ => false,
        }
    }

    /// The least number of items that picklers put into it at once.
    pub fn least(self) -> usize
        ensures count { result ≡ least_of self }
        ensures few { result ≤ 2 }
    {
        match self {
            Role::MoreList => 1,
            Role::MoreDict => 0,
            Role::Set => 1,
            Role::MoreSet => 0,
            _ => 2,
        }
    }

    /// What it is behind items, which may be a full batch.
    pub fn filled(self, full: bool) -> Role
        ensures { result ≡ filled_role full self }
    {
        match self {
            Role::List => if full { Role::MoreList } else { Role::Value },
            Role::MoreList => if full { Role::MoreList } else { Role::Value },
            Role::Dict => if full {
                Role::MoreDict
            } else {
                Role::FilledDict
            },
            Role::MoreDict => if full {
                Role::MoreDict
            } else {
                Role::FilledDict
            },
            Role::Set => if full { Role::MoreSet } else { Role::Value },
            Role::MoreSet => if full { Role::MoreSet } else { Role::Value },
            _ => self,
        }
    }
}

/// The role of a text.
pub(crate) fn text_role(text: &[u8]) -> Role
    ensures { result ≡ text_role text.now }
{
    if is_name(text) {
        Role::Name
    } else {
        Role::Text
    }
}

/// The role of a text that is in UTF-8, surrogates allowed, and may be more than a word.
#[inline(never)]
fn role_beyond_words(text: &[u8]) -> Option<Role>
    ensures { result ≡ if is_text Coding.AnyUtf8 text.now then Some (text_role text.now) else None }
{
    if is_text(Coding::AnyUtf8, text) {
        Some(text_role(text))
    } else {
        None
    }
}

/// The role of a text that is in UTF-8, surrogates allowed. Most texts are one word, for which one look at each byte is enough.
#[inline(always)]
pub(crate) fn role_in_utf8(text: &[u8]) -> Option<Role>
    ensures { result ≡ if is_text Coding.AnyUtf8 text.now then Some (text_role text.now) else None }
{
    if is_word(text) {
        return Some(Role::Name);
    }
    role_beyond_words(text)
}
