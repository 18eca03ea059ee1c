//! A source and a sink in memory.

use kin_io::memory::{MemSink, MemSource};
use kin_io::sink::write_all;
use kin_io::source::{Untaken, read_all};
use std::test::Fail;

const SCRIPT: &[u8] = b"size 1\nhull\n";

/// The script is given in pieces of 3 bytes.
#[test]
fn takes_all_up_to_the_limit(rt: HostRuntime) -> Result<(), Fail> {
    let rows: [(u8, &[u64], Option<Untaken>); 3] = [
        (12, &[], None),
        (11, &[], Some(Untaken::TooLong)),
        (12, &[1], Some(Untaken::Fault)),
    ];
    for (limit, failing, refused) in rows {
        let bytes = Vec::from_slice(rt.alloc(), SCRIPT)?;
        let failing = Vec::from_slice(rt.alloc(), failing)?;
        let mut source = MemSource::new(bytes, 3, failing);
        match read_all(rt.alloc(), &mut source, u32::from(limit)) {
            Ok(all) => assert!(rt;
                refused.is_none() && all.as_slice() == SCRIPT,
                "up to {limit}"
            ),
            Err(why) => assert_eq!(rt; Some(why), refused, "up to {limit}"),
        }
    }
    Ok(())
}

#[test]
fn holds_what_there_is_room_for(rt: HostRuntime) -> Result<(), Fail> {
    let mut sink = MemSink::new(rt.alloc(), 7, Vec::new(rt.alloc()))?;
    let rows: [(bool, &[u8]); 2] = [(true, b"0 1\n"), (false, b"0 1\n0 1")];
    for (taken, held) in rows {
        let wrote = write_all(&mut sink, b"0 1\n").is_ok();
        assert!(rt; wrote == taken && sink.held() == held, "taken: {taken}");
    }
    Ok(())
}
