//! Why bytes are no packed file in the form in which usual writers write, and where.

/// What packs a file.
#[derive(Clone, Copy, Debug, PartialEq, Eq)]
pub enum Packing {
    /// One member of gzip.
    Gzip,
    /// One stream of zlib.
    Zlib,
}

/// A rule that bytes break.
#[derive(Clone, Copy, Debug, PartialEq, Eq)]
pub enum Reason {
    /// The header is cut.
    Cut,
    /// No header, or one of another method.
    Header,
    /// Flags besides the one of a name.
    Flags,
    /// Behind the header is no deflated stream, or one that stands for more bytes than the limit.
    Stream(inflate::Reason),
    /// The checksum or the size behind the stream is cut.
    End,
    /// Bytes stand behind the last that belongs to the stream.
    Rest,
    /// The bytes have another checksum than is told.
    Checksum,
    /// There are more or fewer bytes than are told.
    Size,
}

/// Why bytes are no packed file in that form.
#[derive(Clone, Copy, Debug, PartialEq, Eq)]
pub struct Refusal {
    /// The first rule that they break.
    pub why: Reason,
    /// The byte at which that is noticed, or how many bytes there are where they end too early.
    pub offset: usize,
}
