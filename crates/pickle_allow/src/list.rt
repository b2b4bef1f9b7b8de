//! What a list allows.

/// What is done with an object.
#[derive(Clone, Copy, Debug, PartialEq, Eq)]
pub enum Use {
    /// It is called: REDUCE, OBJ.
    Call,
    /// Its `__new__` is called: NEWOBJ, NEWOBJ_EX.
    New,
    /// It is given a state: BUILD.
    State,
    /// Items go into it: APPEND, APPENDS, SETITEM, SETITEMS, ADDITEMS.
    Fill,
}

/// What may be done with an object.
#[derive(Clone, Copy, Debug, PartialEq, Eq)]
pub struct Uses {
    /// It may be called.
    pub call: bool,
    /// Its `__new__` may be called.
    pub new: bool,
    /// It may be given a state.
    pub state: bool,
    /// Items may go into it.
    pub fill: bool,
}

/// An entry of a list: names, and what may be done with what has one of them.
#[derive(Clone, Copy)]
pub struct Entry<'a> {
    /// A name, as `collections.OrderedDict`, or a pattern of names: `*` stands for anything without a point, two or more stars for anything. What is
    /// no import has a word in place of a name: `persistent`, `buffer`, and `ext` with a number.
    pub pattern: &'a [u8],
    /// What may be done with it itself.
    pub itself: Uses,
    /// What may be done with what its calls made, with what calls of that made, and so on.
    pub made: Uses,
    /// Words among which the shapes of the arguments of its calls stand; nothing where they may be anything.
    pub shapes: &'a [u8],
    /// Words among which the shapes of the states of what its calls made stand; nothing where they may be anything.
    pub states: &'a [u8],
}
