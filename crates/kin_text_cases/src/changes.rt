//! Where the ranges of lines that change the points end.

use crate::outside::are_outside;
use std::test::Fail;

#[test]
fn their_ranges_end_where_they_should(rt: HostRuntime) -> Result<(), Fail> {
    let rows: [(&[u8], u32); 39] = [
        (b"size 1\nremove 1", 0),
        (b"size 1\nremove 2", 2),
        (b"size 12\nremove 4095", 0),
        (b"size 12\nremove 4096", 2),
        (b"size 1\nremove -1", 2),
        (b"size 1\nremove", 2),
        (b"size 1\nremove 0 0", 2),
        (b"size 1\nRemove 0", 2),
        (b"size 1\nreplace 1 -8192 8192 -8192 8192", 0),
        (b"size 1\nreplace 2 0 0 0 0", 2),
        (b"size 1\nreplace 0 8193 0 0 0", 2),
        (b"size 1\nreplace 0 0 -8193 0 0", 2),
        (b"size 1\nreplace 0 0 0 8193 0", 2),
        (b"size 1\nreplace 0 0 0 0 -8193", 2),
        (b"size 1\nreplace 0 0 0 0", 2),
        (b"size 1\nreplace 0 0 0 0 0 0", 2),
        (b"size 1\nturn 1 8192 -8192", 0),
        (b"size 1\nturn 2 0 0", 2),
        (b"size 1\nturn 0 8193 0", 2),
        (b"size 1\nturn 0 0 -8193", 2),
        (b"size 1\nturn 0 0", 2),
        (b"size 1\nturn 0 0 0 0", 2),
        (b"size 1\nturn", 2),
        (b"size 1\nleg 0 4 -1 0", 0),
        (b"size 1\nleg 1 2147483647 8192 -8192", 0),
        (b"size 1\nleg 1 2147483648 0 0", 2),
        (b"size 1\nleg 2 4 0 0", 2),
        (b"size 12\nleg 4095 0 0 0", 0),
        (b"size 12\nleg 4096 0 0 0", 2),
        (b"size 1\nleg 0 4 8193 0", 2),
        (b"size 1\nleg 0 4 0 -8193", 2),
        (b"size 1\nleg 0 -0 0 0", 0),
        (b"size 1\nleg 0 -1 0 0", 2),
        (b"size 1\nleg 0 4/1 0 0", 2),
        (b"size 1\nleg 0 4 0", 2),
        (b"size 1\nleg 0 4 0 0 0", 2),
        (b"size 1\nleg", 2),
        (b"size 1\nremove 0\nkeep hull", 3),
        (b"turn 0 0 0\nsize 1", 1),
    ];
    are_outside(&rt, rt.alloc(), &rows)?;
    Ok(())
}
