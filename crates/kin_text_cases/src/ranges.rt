//! Where the ranges of commands end.

use crate::outside::are_outside;
use std::test::Fail;

#[test]
fn ranges_end_where_they_should(rt: HostRuntime) -> Result<(), Fail> {
    let rows: [(&[u8], u32); 44] = [
        (b"size 1\ninsert 1 0 0 0 0", 0),
        (b"size 1\ninsert 2 0 0 0 0", 2),
        (b"size 12\ninsert 4095 0 0 0 0", 0),
        (b"size 12\ninsert 4096 0 0 0 0", 2),
        (b"size 1\ninsert -0 0 0 0 0", 0),
        (b"size 1\ninsert -1 0 0 0 0", 2),
        (b"size 1\ninsert 0 8192 -8192 8192 -8192", 0),
        (b"size 1\ninsert 0 0 0 0 8193", 2),
        (b"size 1\ninsert 0 0 0 -8193 0", 2),
        (b"size 1\ninsert 0 0 0 0", 2),
        (b"size 1\nat 2147483647/2147483647", 0),
        (b"size 1\nat 2147483648", 2),
        (b"size 1\nat 1/2147483648", 2),
        (b"size 1\nat 1/0", 2),
        (b"size 1\nat 1/-0", 2),
        (b"size 1\nat -0/7", 0),
        (b"size 1\nat -1/7", 2),
        (b"size 1\nat 1/ 2", 2),
        (b"size 1\nat /2", 2),
        (b"size 1\nat 1/2/3", 2),
        (b"size 1\nat root 536870912 -2147483648 536870912 lo", 0),
        (b"size 1\nat root -536870912 2147483648 -536870912 hi", 0),
        (b"size 1\nat root -1 0 2 hi", 0),
        (b"size 1\nat root 0 1 2 hi", 2),
        (b"size 1\nat root -0 1 2 hi", 2),
        (b"size 1\nat root 536870913 0 0 lo", 2),
        (b"size 1\nat root 1 2147483649 0 lo", 2),
        (b"size 1\nat root 1 -2147483649 0 hi", 2),
        (b"size 1\nat root 1 4294967296 0 lo", 2),
        (b"size 1\nat root 1 0 -536870913 lo", 2),
        (b"size 1\nat root 1 0 0", 2),
        (b"size 1\nat root 1 0 0 up", 2),
        (b"size 1\nat root 1 0 0 hi lo", 2),
        (b"size 1\nat root", 2),
        (b"size 1\norder 32", 2),
        (b"size 1\nextreme 31\norder 31", 0),
        (b"size 1\nhull 0", 2),
        (b"size 1\nbox -16777217 0 0 0", 2),
        (b"size 1\nbox 0 0 0 16777217", 2),
        (b"size 1\nnext", 0),
        (b"size 1\nnext 1", 2),
        (b"size 1\nlive", 0),
        (b"size 1\nlive 0", 2),
        (b"size 1\nextreme 32", 2),
    ];
    are_outside(&rt, rt.alloc(), &rows)?;
    Ok(())
}
