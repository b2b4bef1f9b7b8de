//! What sinks take.

use pickle_io::{Sink, ToWrite, write_all};
use std::io::BufWriter;
use std::test::Fail;

/// What a writer keeps back, it hands on where the sink is flushed, and no sooner.
#[test]
fn flushed_writers(rt: HostRuntime) -> Result<(), Fail> {
    let alloc = rt.alloc();
    for is_flushed in [false, true] {
        let mut sink = ToWrite::new(BufWriter::new(alloc, Vec::new(alloc))?);
        write_all(&mut sink, b"kept")?;
        if is_flushed {
            sink.flush()?;
        }
        let writer = sink.into_inner();
        assert!(rt; writer.get_ref().is_empty() != is_flushed);
        assert!(rt; writer.buffer().is_empty() == is_flushed);
    }
    Ok(())
}
