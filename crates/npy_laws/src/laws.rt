//! What an `.npy` file in form is to numpy. The functions do nothing: what they ensure is the law.

ghost use Rattle.npy_laws.specs.Laws.{NumpyAgrees, OneNpy, WhatIsReadIsWritten};

/// Bytes are one array at most, as numpy writes it.
pub fn one_npy()
    ensures { OneNpy }
{}

/// Numpy's reader finds this array. It gives what is behind the header to an unpickler exactly if the items are objects.
pub fn numpy_agrees()
    ensures { NumpyAgrees }
{}

/// What `read_array` finds in form, numpy has written so.
pub fn what_is_read_is_written()
    ensures { WhatIsReadIsWritten }
{}
