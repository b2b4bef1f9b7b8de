//! Which member does not pass, and why.

use npy_form::Refusal;
use pickle_gate::Verdict;
use zip_open::Broken;

/// Why an array does not pass.
#[derive(Clone, Copy)]
pub enum ArrayFault {
    /// It is not in the form in which numpy writes.
    Form(Refusal),
    /// What is behind its header is no pickle that passes, and a loader may reach something in it.
    Refused(Verdict),
}

/// Why a member does not pass.
#[derive(Clone, Copy)]
pub enum Fault {
    /// It does not open.
    Broken(Broken),
    /// What it opens to is an archive itself, which is not looked at.
    Archive,
    /// What it opens to is no pickle that passes, and a loader may reach something in it.
    Refused(Verdict),
    /// What it opens to begins as an `.npy` file does, and does not pass as one.
    Array(ArrayFault),
}

/// The first member that does not pass.
#[derive(Clone, Copy)]
pub struct Failing {
    /// How many members are before it.
    pub place: usize,
    /// Why it does not pass.
    pub fault: Fault,
}
